// Recordings and readers of one schedule.
#![tactic(auto)]

ghost use Rattle.std.specs.Prelude.{◌≡◌, []};
ghost use Rattle.schedule.specs.Ranges.{longest};
ghost use Rattle.writer.specs.Holding.{Open, opened};
ghost use Rattle.reader.specs.Reading.{InRange, started};
ghost use Rattle.lane.specs.Laws.{StreamsAndRecordingsAgree};
ghost use Rattle.lane.specs.Worked.{Worked};

use reader::reader::Reader;
use schedule::interface::Schedule;
use writer::recording::Recording;

// A new recording and a new reader on one schedule.
pub fn open_lane<S: Schedule + Copy>(schedule: S) -> (Recording<S>, Reader<S>)
    ensures recording { (result.0.schedule ≡ schedule) × (result.0.held ≡ opened) × Open (S.ranges schedule) [] result.0.held }
    ensures reader { (result.1.schedule ≡ schedule) × (result.1.reading ≡ started) × InRange (S.ranges schedule) result.1.reading }
    ensures agree { StreamsAndRecordingsAgree (S.ranges schedule) }
    ensures worked { Worked }
{
    (Recording::open(schedule), Reader::new(schedule))
}

// N, the blocks of the longest recording, and with it the laws over any schedule.
pub fn longest_recording<S: Schedule>(schedule: &S) -> u64
    ensures longest { result ≡ longest (S.ranges schedule.now) }
    ensures agree { StreamsAndRecordingsAgree (S.ranges schedule.now) }
{
    schedule.longest()
}
