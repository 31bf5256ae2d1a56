// What a recording holds: the count of its symbols so far, the spill, and the symbol that waits for its partner, or 0. The
// count alone says what is due, and so whether one waits: an Option would have to agree with it.
#[derive(Clone, Copy, Debug, Default, PartialEq, Eq)]
pub struct Held {
    pub(crate) count: u64,
    pub(crate) spill: u64,
    pub(crate) waiting: u64,
}

// The one or two blocks of a group.
#[derive(Clone, Copy)]
pub(crate) enum Group {
    One(u64),
    Two(u64, u64),
}
