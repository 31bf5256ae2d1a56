// A recording: opened, offered pieces, then closed.
ghost use Rattle.std.specs.Prelude.{◌≡◌, ◌≤◌, [], Ok, Err, MatchResult};
ghost use Rattle.schedule.specs.Ranges.{longest};
ghost use Rattle.writer.specs.Holding.{Open, Small, opened};
ghost use Rattle.writer.specs.Calls.{Offers, Closes};
ghost use Rattle.writer.specs.Laws.{WriterLaws};
ghost use Rattle.writer.specs.Worked.{WorkedStreams};

use crate::held::Held;
use schedule::fault::{Fault, Refused};
use schedule::interface::Schedule;

// An open recording on a schedule, of at most N blocks. It writes into lent buffers: nothing here needs a heap.
#[derive(Drop)]
pub struct Recording<S: Schedule> {
    pub(crate) schedule: S,
    pub(crate) held: Held,
    ghost small: { Small held },
    ghost few: { held.count ≤ longest (S.ranges schedule) },
}

impl<S: Schedule> Recording<S> {
    // An empty open recording.
    pub fn open(schedule: S) -> Recording<S>
        ensures schedule { result.schedule ≡ schedule }
        ensures empty { (result.held ≡ opened) × Open (S.ranges schedule) [] result.held }
        ensures laws { WriterLaws (S.ranges schedule) }
        ensures worked { WorkedStreams }
    {
        Recording {
            schedule,
            held: Held::default(),
        }
    }

    // Accepts the blocks of a piece, writes every group whose pair they complete at the buffer's front, and answers how
    // many blocks that are. Refuses with 11, 10 or 12, and then leaves recording and buffer as they were.
    pub fn offer(&mut self, piece: &[u64], buffer: &mut [u64]) -> Result<usize, Fault>
        ensures schedule { self.new.schedule ≡ self.old.schedule }
        ensures offers { Offers (S.ranges self.old.schedule) self.old.held piece.now buffer.old result self.new.held buffer.new }
    {
        self.check_offer(piece, buffer.len())?;
        Ok(self.write(piece, buffer))
    }

    // Writes the remaining groups with the closing group at the buffer's front, answers how many blocks that are, and
    // uses the recording up. Refuses with 12, and then hands the recording back.
    pub fn close(mut self, buffer: &mut [u64]) -> Result<usize, Refused<Recording<S>>>
    where
        S: Drop,
        ensures { MatchResult result (λ n. Closes (S.ranges self.schedule) self.held buffer.old (Ok n) self.held buffer.new) (λ e. Closes (S.ranges self.schedule) self.held buffer.old (Err e.fault) e.kept.held buffer.new × (e.kept.schedule ≡ self.schedule)) }
    {
        match self.check_close(buffer.len()) {
            Ok(()) => Ok(self.finish(buffer)),
            Err(fault) => Err(Refused { kept: self, fault }),
        }
    }
}
