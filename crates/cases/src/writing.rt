// Recordings written whole, and their streams.
use schedule::interface::Schedule;
use std::alloc::{AllocError, Global};
use writer::recording::Recording;

// n blocks that look like any.
pub(crate) fn sample<S: Schedule>(
    alloc: Global,
    schedule: &S,
    n: u64,
) -> Result<Vec<u64>, AllocError> {
    let base = schedule.base();
    (0..n)
        .map(|i| {
            let x = i
                .wrapping_mul(i)
                .wrapping_mul(7919)
                .wrapping_add(i.wrapping_mul(104729));
            x.wrapping_add(12345) % base
        })
        .collect(alloc)
}

// A recording that is being written, with the buffer of its calls and the stream so far.
#[derive(Drop)]
struct Writing<S: Schedule> {
    recording: Recording<S>,
    buffer: Vec<u64>,
    stream: Vec<u64>,
}

impl<S: Schedule + Drop> Writing<S> {
    fn open(alloc: Global, schedule: S, room: usize) -> Result<Writing<S>, AllocError> {
        Ok(Writing {
            recording: Recording::open(schedule),
            buffer: vec![in alloc; 0u64; room]?,
            stream: Vec::new(alloc),
        })
    }

    fn offer(&mut self, piece: &[u64]) -> Result<(), AllocError> {
        if let Ok(n) = self.recording.offer(piece, &mut self.buffer) {
            self.stream.extend_from_slice(&self.buffer[0..n])?;
        }
        Ok(())
    }

    // The whole stream.
    fn close(self) -> Result<Vec<u64>, AllocError> {
        let Writing {
            recording,
            mut buffer,
            mut stream,
        } = self;
        if let Ok(n) = recording.close(&mut buffer) {
            stream.extend_from_slice(&buffer[0..n])?;
        }
        Ok(stream)
    }
}

// The stream of these blocks, offered in pieces of 0, 1, 2, .. blocks.
pub(crate) fn written<S: Schedule + Drop>(
    alloc: Global,
    schedule: S,
    blocks: &[u64],
) -> Result<Vec<u64>, AllocError> {
    let mut writing = Writing::open(alloc, schedule, blocks.len().saturating_add(4))?;
    let mut rest = blocks;
    for size in 0..blocks.len().saturating_add(1) {
        let (piece, more) = rest.split_at(size.min(rest.len()));
        writing.offer(piece)?;
        rest = more;
    }
    writing.close()
}

// The stream of these blocks, cut where a bit of `cuts` is set, low bit first. The bits are halved away, since a shift by
// a block's index would have to be shown to be small.
pub(crate) fn written_cut<S: Schedule + Drop>(
    alloc: Global,
    schedule: S,
    blocks: &[u64],
    cuts: u64,
) -> Result<Vec<u64>, AllocError> {
    let mut writing = Writing::open(alloc, schedule, 8)?;
    let mut piece = Vec::new(alloc);
    let mut bits = cuts;
    for x in blocks {
        piece.push(*x)?;
        if bits % 2 == 1 {
            writing.offer(&piece)?;
            piece.clear();
        }
        bits /= 2;
    }
    writing.offer(&piece)?;
    writing.close()
}
