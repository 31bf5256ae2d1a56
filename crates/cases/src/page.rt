// The page that the cases are printed on.
use schedule::text::Listing;
use std::{fmt, io};

// Prints lines, and counts them.
#[derive(Drop)]
pub(crate) struct Page<'a> {
    pub(crate) rt: &'a HostRuntime,
    pub(crate) lines: u64,
}

impl Page<'_> {
    pub(crate) fn line<D: fmt::Display + Drop>(&mut self, text: D) -> io::Result<()> {
        self.lines = self.lines.saturating_add(1);
        println!(self.rt; "{text}")
    }
}

// The first three blocks and the last three.
#[derive(Clone, Copy)]
pub(crate) struct Ends<'a>(pub(crate) &'a [u64]);

impl fmt::Display for Ends<'_> {
    fn fmt<W: fmt::Write>(&self, f: &mut fmt::Formatter<W>) -> fmt::Result {
        let blocks = self.0;
        let (first, _) = blocks.split_at(blocks.len().min(3));
        let (_, last) = blocks.split_at(blocks.len().saturating_sub(3));
        write!(f, "{} ..{}", Listing(first), Listing(last))
    }
}

// One number of many, in the order in which they come.
pub(crate) fn mix(total: u64, x: u64) -> u64 {
    total.wrapping_mul(31).wrapping_add(x) % 1000003
}

pub(crate) fn checksum(blocks: &[u64]) -> u64 {
    blocks
        .iter()
        .zip(0u64..)
        .fold(0, |total, (x, i)| mix(total, x.wrapping_add(i)))
}
