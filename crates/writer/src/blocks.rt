ghost use Rattle.std.specs.Prelude.{◌≡◌};
ghost use Rattle.writer.specs.Calls.{front_below};

// How many blocks stand before the first that is `base` or more: all of them, where there is none.
pub fn front_below(base: u64, piece: &[u64]) -> usize
    ensures { result ≡ front_below base piece.now }
{
    piece.iter().position(|x| *x >= base).unwrap_or(piece.len())
}
