ghost use Rattle.std.specs.Prelude.{◌≡◌, [], ◌∷◌, ◌++◌, length, drop, MatchResult, nat_lt, Some};
ghost use Rattle.schedule.specs.Faults.{says, judged};
ghost use Rattle.schedule.specs.Texts.{text_of, listing};

use crate::fault::{Fault, PieceFault};
use std::fmt;

// The text of a number of the refusal table; every other number has the empty text, so any may be asked for.
#[tactic(auto, unfolding(crate::specs::Texts::text_of))]
fn text_of(number: u64) -> &'static str
    ensures { result.now ≡ text_of number }
{
    match number {
        1 => "width unknown",
        10 => "block too large",
        11 => "recording too long",
        12 => "buffer too short",
        20 => "block too large",
        21 => "carrier beyond range",
        22 => "pair beyond range",
        23 => "mark before block",
        24 => "closing not zero",
        25 => "no mark",
        26 => "cut short",
        30 => "no such place",
        40 => "width has no bytes",
        41 => "buffer too short",
        _ => "",
    }
}

// Writes the text of a number at the buffer's front, and answers its length; a buffer that is too short is refused
// with 12. The buffer is lent: nothing here needs a heap.
pub fn write_text(number: u64, buffer: &mut [u8]) -> Result<usize, Fault>
    ensures answers { says result ≡ judged ((12, length (text_of number), nat_lt (length buffer.old) (length (text_of number))) ∷ []) (length (text_of number)) }
    ensures writes { MatchResult result (λ n. buffer.new ≡ text_of number ++ drop (length (text_of number)) buffer.old) (λ _. buffer.new ≡ buffer.old) }
{
    let text = text_of(number).as_bytes();
    let needed = text.len();
    if buffer.len() < needed {
        return Err(Fault::Piece(PieceFault::BufferTooShort(needed as u64)));
    }
    buffer[0..needed].copy_from_slice(text);
    Ok(needed)
}

// Blocks as they are printed, each with a space before it.
#[derive(Clone, Copy)]
pub struct Listing<'a>(pub &'a [u64]);

impl fmt::Display for Listing<'_> {
    ghost output = { λ l. Some (listing l.0.now) };

    fn fmt<W: fmt::Write>(&self, f: &mut fmt::Formatter<W>) -> fmt::Result {
        for x in self.0 {
            write!(f, " {x}")?;
        }
        Ok(())
    }
}
