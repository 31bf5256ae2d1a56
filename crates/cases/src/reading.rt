// Streams taken, and what they bring.
use reader::reader::Reader;
use reader::reading::Brought;
use schedule::interface::Schedule;
use std::alloc::{AllocError, Global};
use std::fmt;

// What these blocks bring, refused ones too, and then a stop.
#[derive(Clone, Copy)]
pub(crate) struct Taken<'a, S: Schedule + Copy> {
    pub(crate) schedule: S,
    pub(crate) blocks: &'a [u64],
}

impl<S: Schedule + Copy> fmt::Display for Taken<'_, S> {
    fn fmt<W: fmt::Write>(&self, f: &mut fmt::Formatter<W>) -> fmt::Result {
        let mut reader = Reader::new(self.schedule);
        for block in self.blocks {
            match reader.take(*block) {
                Ok(brought) => write!(f, " {brought}")?,
                Err(fault) => write!(f, " {fault}")?,
            }
        }
        match reader.stop() {
            Ok(()) => write!(f, ", stopped"),
            Err(refused) => write!(f, ", stop {}", refused.fault),
        }
    }
}

// The blocks that a stream brings, with a number beyond every block for an end, as a checksum is of numbers; short where
// a block is refused.
pub(crate) fn read_back<S: Schedule + Drop>(
    alloc: Global,
    schedule: S,
    stream: &[u64],
) -> Result<Vec<u64>, AllocError> {
    let end = schedule.base();
    let mut reader = Reader::new(schedule);
    let mut blocks = Vec::new(alloc);
    for block in stream {
        match reader.take(*block) {
            Ok(Brought::One(x)) => blocks.push(x)?,
            Ok(Brought::Two(x, y)) => blocks.extend_from_slice(&[x, y])?,
            Ok(Brought::End) => blocks.push(end)?,
            Ok(Brought::OneThenEnd(x)) => blocks.extend_from_slice(&[x, end])?,
            Ok(Brought::Nothing) | Err(_) => {}
        }
    }
    Ok(blocks)
}
