// A reader of streams: takes one block at a time, and is stopped between streams.
ghost use Rattle.std.specs.Prelude.{◌≡◌, ℕ, ◌+◌, ◌<◌, Ok, Err, MatchResult};
ghost use Rattle.schedule.specs.Faults.{says, judged};
ghost use Rattle.writer.specs.Passes.{second_pass_back};
ghost use Rattle.reader.specs.Back.{PassesAnswer};
ghost use Rattle.reader.specs.Reading.{Small, InRange, started, brought, pair_rows_before, closing_rows};
ghost use Rattle.reader.specs.Calls.{says_brought, whole_rows, whole_brings, after_group, Takes, Stops};

use crate::back::{first_pass_back, second_pass_back};
use crate::reading::{Brought, Reading};
use schedule::fault::{ClosingFault, Fault, Refused, SecondPassFault};
use schedule::interface::Schedule;

// A reader on a schedule.
#[derive(Drop)]
pub struct Reader<S: Schedule> {
    schedule: S,
    reading: Reading,
    ghost small: { Small reading },
}

impl<S: Schedule> Reader<S> {
    // A reader at the start of a stream.
    #[tactic(auto, using(crate::proofs::Pairs::passes_answer))]
    pub fn new(schedule: S) -> Reader<S>
        ensures schedule { result.schedule ≡ schedule }
        ensures started { (result.reading ≡ started) × InRange (S.ranges schedule) result.reading }
        ensures passes { PassesAnswer (S.ranges schedule) }
    {
        Reader {
            schedule,
            reading: Reading::default(),
        }
    }

    // Takes one block, and answers what it brings. Refuses with 20 and, where it completes a group, with 21 to 25, and
    // then leaves the reader as it was.
    pub fn take(&mut self, block: u64) -> Result<Brought, Fault>
        ensures schedule { self.new.schedule ≡ self.old.schedule }
        ensures takes { Takes (S.ranges self.old.schedule) self.old.reading block result self.new.reading }
    {
        let base = self.schedule.base();
        let lead = self.schedule.lead();
        let place = self.reading.count;
        // The reader's state and the block are matched together: what a block brings goes by both.
        match (self.reading, block) {
            (_, block) if block >= base => {
                Err(Fault::SecondPass(SecondPassFault::TakenTooLarge(place)))
            }
            (
                Reading {
                    step,
                    low: None,
                    ..
                },
                low,
            ) if step + lead > 0 => {
                self.reading.count = place + 1;
                self.reading.low = Some(low);
                Ok(Brought::Nothing)
            }
            (Reading { low: None, .. }, only) => self.take_group(only),
            (Reading { low: Some(low), .. }, high) => self.take_group(high * base + low),
        }
    }

    // Ends the reading, and uses the reader up. Refuses with 26 inside a stream, and then hands the reader back.
    pub fn stop(self) -> Result<(), Refused<Reader<S>>>
    where
        S: Drop,
        ensures { MatchResult result (λ u. Stops self.reading (Ok u) self.reading) (λ e. Stops self.reading (Err e.fault) e.kept.reading × (e.kept.schedule ≡ self.schedule)) }
    {
        let place = self.reading.count;
        if place == 0 {
            Ok(())
        } else {
            Err(Refused {
                kept: self,
                fault: Fault::Closing(ClosingFault::CutShort(place)),
            })
        }
    }

    // The group is complete, and w is its number.
    fn take_group(&mut self, w: u64) -> Result<Brought, Fault>
        ensures schedule { self.new.schedule ≡ self.old.schedule }
        ensures answers { let R = S.ranges self.old.schedule in let g = self.old.reading in says_brought result ≡ judged (whole_rows R g (Some w)) (whole_brings R g (Some w)) }
        ensures leaves { let R = S.ranges self.old.schedule in let g = self.old.reading in MatchResult result (λ x. self.new.reading ≡ after_group R g w (brought x).1) (λ _. self.new.reading ≡ g) }
    {
        let Reading { count, step, .. } = self.reading;
        let (carrier, spill) = second_pass_back(&self.schedule, step, w, count)?;
        let what = self.known(spill)?;
        self.check_closing(carrier, what.ends())?;
        self.reading = if what.ends() {
            Reading::default()
        } else {
            Reading {
                count: count + 1,
                step: step + 1,
                before: carrier,
                low: None,
            }
        };
        Ok(what)
    }

    // What the group of this spill makes known.
    fn known(&self, spill: u64) -> Result<Brought, Fault>
        ensures { let R = S.ranges self.now.schedule in let g = self.now.reading in (w : ℕ) → spill ≡ (second_pass_back R g.step w).1 → says_brought result ≡ judged (pair_rows_before R g.count g.step g.before w) (whole_brings R g (Some w)) }
    {
        let Reading {
            count,
            step,
            before,
            ..
        } = self.reading;
        let mark = self.schedule.end_mark();
        match step {
            0 if self.schedule.lead() == 0 => Ok(Brought::Nothing),
            0 if spill == mark => Ok(Brought::End),
            0 => Ok(Brought::One(spill)),
            _ => match first_pass_back(&self.schedule, step - 1, before, spill, count)? {
                (s, _) if s == mark => Ok(Brought::End),
                (s, t) if t == mark => Ok(Brought::OneThenEnd(s)),
                (s, t) => Ok(Brought::Two(s, t)),
            },
        }
    }

    // Whether a stream may end, or go on, behind the group of this carrier.
    fn check_closing(&self, carrier: u64, end: bool) -> Result<(), Fault>
        ensures { let R = S.ranges self.now.schedule in let g = self.now.reading in says result ≡ judged (closing_rows R g.count g.step carrier end) tt }
    {
        let Reading { count, step, .. } = self.reading;
        if end && carrier != 0 {
            Err(Fault::Closing(ClosingFault::ClosingNotZero(count)))
        } else if !end && step == self.schedule.steps() {
            Err(Fault::Closing(ClosingFault::NoMark(count)))
        } else {
            Ok(())
        }
    }
}
