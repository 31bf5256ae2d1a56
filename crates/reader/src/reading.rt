ghost use Rattle.std.specs.Prelude.{◌≡◌, Some};
ghost use Rattle.reader.specs.Reading.{brought, printed};

use std::fmt;

// What a block brings: one of five things, of which nothing is one.
#[derive(Clone, Copy, Debug, PartialEq, Eq)]
pub enum Brought {
    Nothing,
    One(u64),
    Two(u64, u64),
    End,
    OneThenEnd(u64),
}

impl Brought {
    // Whether an end comes.
    pub fn ends(&self) -> bool
        ensures { result ≡ (brought self.now).1 }
    {
        matches!(self, Brought::End | Brought::OneThenEnd(_))
    }
}

// Its blocks, and / for an end; - for nothing.
impl fmt::Display for Brought {
    ghost output = { λ what. Some (printed what) };

    fn fmt<W: fmt::Write>(&self, f: &mut fmt::Formatter<W>) -> fmt::Result {
        match self {
            Brought::Nothing => write!(f, "-"),
            Brought::One(block) => write!(f, "{block}"),
            Brought::Two(first, second) => write!(f, "{first} {second}"),
            Brought::End => write!(f, "/"),
            Brought::OneThenEnd(block) => write!(f, "{block} /"),
        }
    }
}

// What a reader holds: the count of blocks accepted since it was new or since its last end, and the group that comes
// next: its step, the carrier of the group before, and its first block, where that was taken. Before the first group the
// carrier is 0, a number that nothing reads: the step says so already.
#[derive(Clone, Copy, Debug, Default, PartialEq, Eq)]
pub struct Reading {
    pub(crate) count: u64,
    pub(crate) step: u64,
    pub(crate) before: u64,
    pub(crate) low: Option<u64>,
}
