// Bytes packed into blocks.
#![tactic(auto)]

ghost use Rattle.std.specs.Prelude.{◌≡◌, ℕ, ◌+◌, ◌*◌, ◌/◌, ◌^◌, ◌<◌, ◌≤◌, not, [], ◌∷◌, length, MatchResult, ◌==◌, nat_lt, slice_index};
ghost use Rattle.schedule.specs.Faults.{says, judged};
ghost use Rattle.schedule.specs.Kinds.{known};
ghost use Rattle.content.specs.Bytes.{number_from, blocks_of, needed, Packed};

use schedule::fault::{Fault, PieceFault};
use schedule::width::Width;

// The block of a chunk, low byte first. An incomplete chunk is filled with one byte 80 (hexadecimal) and then zeros.
fn block_of(size: usize, chunk: &[u8]) -> u64
    requires { (size ≤ 3) × (length chunk.now ≤ size) }
    ensures is { result ≡ number_from size chunk.now 0 }
    ensures below { result < 256 ^ size }
{
    let filler = if chunk.len() < size { 0x80 } else { 0 };
    chunk
        .iter()
        .rev()
        .fold(filler, |block, byte| (block << 8) | u64::from(*byte))
}

// Writes the blocks of the bytes at the buffer's front, which has room for them. It goes by index: over
// `buffer.iter_mut().zip(..)` no invariant can name the buffer.
fn write_blocks(size: usize, bytes: &[u8], buffer: &mut [u64])
    requires { (1 ≤ size) × (size ≤ 3) × (blocks_of size (length bytes.now) ≤ length buffer.old) }
    ensures packed { Packed size (blocks_of size (length bytes.now)) bytes.now buffer.old buffer.new }
    ensures below { (k : ℕ) → k < blocks_of size (length bytes.now) → slice_index buffer.new k < 256 ^ size }
{
    for (i, chunk) in bytes.chunks(size).enumerate() {
        buffer[i] = block_of(size, chunk);
    }
}

// Packs bytes into blocks of the width at the buffer's front, low byte first, and answers how many. An incomplete
// last block is filled with one byte 80 (hexadecimal) and then zeros. The rest of the buffer keeps its content, and
// so does all of it where the call refuses with 1, 40 or 41. Any number may be asked for as a width, and the buffer is
// lent: nothing here needs a heap.
pub fn pack(width: u64, bytes: &[u8], buffer: &mut [u64]) -> Result<usize, Fault>
    ensures answers { says result ≡ judged ((1, 0, not (known width)) ∷ (40, 0, (width == 5)) ∷ (41, needed width bytes.now, nat_lt (length buffer.old) (needed width bytes.now)) ∷ []) (needed width bytes.now) }
    ensures writes { MatchResult result (λ n. Packed (width / 8) n bytes.now buffer.old buffer.new) (λ _. buffer.new ≡ buffer.old) }
    ensures below { MatchResult result (λ n. (i : ℕ) → i < n → slice_index buffer.new i < 2 ^ width) (λ _. Unit) }
{
    let size = match Width::try_from(width)? {
        Width::Five => return Err(Fault::Piece(PieceFault::WidthHasNoBytes)),
        Width::Eight => 1,
        Width::Sixteen => 2,
        Width::TwentyFour => 3,
    };
    let needed = bytes.len().div_ceil(size);
    if buffer.len() < needed {
        return Err(Fault::Piece(PieceFault::PackingTooShort(needed as u64)));
    }
    write_blocks(size, bytes, buffer);
    Ok(needed)
}
