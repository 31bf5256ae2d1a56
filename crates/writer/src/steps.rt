// The writer's steps: one symbol, a piece, the end marks, and what stands against them. That the schedule stays is a clause
// of each that alters the recording, as no ghost field can say it.
ghost use Rattle.std.specs.Prelude.{◌≡◌, ℕ, ◌+◌, ◌^◌, ◌<◌, ◌≤◌, List, [], ◌∷◌, ◌++◌, length, take, drop, nat_lt};
ghost use Rattle.std.specs.List.{AllByRecursion};
ghost use Rattle.schedule.specs.Faults.{says, judged};
ghost use Rattle.schedule.specs.Ranges.{longest};
ghost use Rattle.writer.specs.Stream.{marks, complete, stream};
ghost use Rattle.writer.specs.Holding.{Holds, Grows, Sized, due, completed};
ghost use Rattle.writer.specs.Calls.{offer_writes, offer_rows, close_writes, close_rows};

use crate::blocks::front_below;
use crate::held::{Group, Held};
use crate::passes::{first_pass, second_pass};
use crate::recording::Recording;
use schedule::fault::{Fault, PieceFault};
use schedule::interface::Schedule;

impl<S: Schedule> Recording<S> {
    // What is held after one more symbol, and the group that it completes, if any. It is not held yet: the last end mark
    // goes beyond N, which a recording does not. A symbol is a number here and in the passes, with its bound in the
    // contract: a type for it would be taken apart wherever it is reckoned with. Inlined, as a call for each symbol of a
    // piece would pass what is held through memory.
    #[inline(always)]
    fn after(&self, symbol: u64) -> (Held, Option<Group>)
        requires { symbol ≤ 16777216 }
        ensures count { result.0.count ≡ self.now.held.count + 1 }
        ensures sized { Sized result.0 }
        ensures long { let R = S.ranges self.now.schedule in length (completed result.1) + due R self.now.held.count ≡ due R (self.now.held.count + 1) }
        ensures grows { let R = S.ranges self.now.schedule in (ss : List ℕ) → Holds R ss self.now.held → Grows R ss (symbol ∷ []) result.0 (completed result.1) }
    {
        let held = self.held;
        let count = held.count + 1;
        let Some(place) = held.count.checked_sub(self.schedule.lead()) else {
            return (
                Held {
                    count,
                    spill: symbol,
                    waiting: 0,
                },
                None,
            );
        };
        if place % 2 == 0 {
            return (
                Held {
                    count,
                    waiting: symbol,
                    ..held
                },
                None,
            );
        }
        let j = place / 2;
        let (carrier, spill) = first_pass(&self.schedule, j, held.waiting, symbol);
        let group = second_pass(&self.schedule, j, carrier, held.spill);
        (
            Held {
                count,
                spill,
                waiting: 0,
            },
            Some(group),
        )
    }

    // Takes one more symbol, and answers the group that it completes, if any. Inlined likewise.
    #[inline(always)]
    fn push(&mut self, symbol: u64) -> Option<Group>
        requires symbol { symbol ≤ 16777216 }
        requires few { self.old.held.count < longest (S.ranges self.old.schedule) }
        ensures schedule { self.new.schedule ≡ self.old.schedule }
        ensures count { self.new.held.count ≡ self.old.held.count + 1 }
        ensures long { let R = S.ranges self.old.schedule in length (completed result) + due R self.old.held.count ≡ due R (self.old.held.count + 1) }
        ensures grows { let R = S.ranges self.old.schedule in (ss : List ℕ) → Holds R ss self.old.held → Grows R ss (symbol ∷ []) self.new.held (completed result) }
    {
        let (held, group) = self.after(symbol);
        self.held = held;
        group
    }

    // Takes blocks one after another, puts each group that they complete into the buffer, from its front, and answers
    // how many blocks were written. `at` moves on by none, one or two: an iterator over the buffer's places would leave
    // nothing known of the buffer, and a rest that is handed on as a slice no name for what stands before it.
    pub(crate) fn write(&mut self, blocks: &[u64], buffer: &mut [u64]) -> usize
        requires below { AllByRecursion (λ x. x < (S.ranges self.old.schedule).base) blocks.now }
        requires few { self.old.held.count + length blocks.now ≤ longest (S.ranges self.old.schedule) }
        requires room { offer_writes (S.ranges self.old.schedule) self.old.held.count (length blocks.now) ≤ length buffer.old }
        ensures schedule { self.new.schedule ≡ self.old.schedule }
        ensures count { self.new.held.count ≡ self.old.held.count + length blocks.now }
        ensures wrote { result ≡ offer_writes (S.ranges self.old.schedule) self.old.held.count (length blocks.now) }
        ensures behind { drop result buffer.new ≡ drop result buffer.old }
        ensures grows { let R = S.ranges self.old.schedule in (ss : List ℕ) → Holds R ss self.old.held → Grows R ss blocks.now self.new.held (take result buffer.new) }
    {
        let mut at = 0;
        for x in blocks {
            at = put(buffer, at, self.push(*x));
        }
        at
    }

    // How many blocks have been written once n symbols are known.
    fn due(&self, n: u64) -> u64
        requires { n < 2 ^ 32 }
        ensures { result ≡ due (S.ranges self.now.schedule) n }
    {
        let lead = self.schedule.lead();
        (2 * (n.saturating_sub(lead) / 2) + lead).saturating_sub(1)
    }

    // What stands against an offer of this piece into a buffer of `room` blocks.
    pub(crate) fn check_offer(&self, piece: &[u64], room: usize) -> Result<(), Fault>
        ensures { says result ≡ judged (offer_rows (S.ranges self.now.schedule) self.now.held.count piece.now room) tt }
    {
        let count = self.held.count;
        let left = self.schedule.longest() - count;
        if piece.len() as u64 > left {
            return Err(Fault::Piece(PieceFault::RecordingTooLong(left)));
        }
        let front = front_below(self.schedule.base(), piece);
        if front < piece.len() {
            return Err(Fault::Piece(PieceFault::OfferedTooLarge(front as u64)));
        }
        check_room(room, self.due(count + piece.len() as u64) - self.due(count))
    }

    // How many end marks follow the blocks.
    fn mark_count(&self) -> u64
        ensures { result ≡ length (marks (S.ranges self.now.schedule) self.now.held.count) }
    {
        1 + (self.held.count + 1 - self.schedule.lead()) % 2
    }

    // What stands against a close into a buffer of `room` blocks.
    pub(crate) fn check_close(&self, room: usize) -> Result<(), Fault>
        ensures { says result ≡ judged (close_rows (S.ranges self.now.schedule) self.now.held.count room) tt }
    {
        let count = self.held.count;
        check_room(room, count + self.mark_count() + 1 - self.due(count))
    }

    // What is held after the end marks, and the group that they complete, if any. The first of two waits for the second.
    fn take_marks(&mut self) -> (Held, Option<Group>)
        ensures schedule { self.new.schedule ≡ self.old.schedule }
        ensures count { result.0.count ≡ self.old.held.count + length (marks (S.ranges self.old.schedule) self.old.held.count) }
        ensures sized { Sized result.0 }
        ensures long { length (completed result.1) + 2 ≡ close_writes (S.ranges self.old.schedule) self.old.held.count }
        ensures grows { let R = S.ranges self.old.schedule in (ss : List ℕ) → Holds R ss self.old.held → Grows R ss (marks R self.old.held.count) result.0 (completed result.1) }
    {
        let mark = self.schedule.end_mark();
        let two = self.mark_count() == 2;
        if two {
            self.push(mark);
        }
        self.after(mark)
    }

    // Writes the remaining groups with the closing group, whose carrier is 0, and answers how many blocks that are.
    pub(crate) fn finish(&mut self, buffer: &mut [u64]) -> usize
        requires room { close_writes (S.ranges self.old.schedule) self.old.held.count ≤ length buffer.old }
        ensures wrote { result ≡ close_writes (S.ranges self.old.schedule) self.old.held.count }
        ensures behind { drop result buffer.new ≡ drop result buffer.old }
        ensures closes { let R = S.ranges self.old.schedule in (blocks : List ℕ) → Holds R blocks self.old.held → stream R blocks ≡ complete R blocks ++ take result buffer.new }
    {
        let (last, group) = self.take_marks();
        let at = put(buffer, 0, group);
        let j = last.count.saturating_sub(self.schedule.lead()) / 2;
        let closing = second_pass(&self.schedule, j, 0, last.spill);
        put(buffer, at, Some(closing))
    }
}

// Puts a group, if there is one, into the buffer at `at`, by index as `write` goes, and answers the place behind it.
fn put(buffer: &mut [u64], at: usize, group: Option<Group>) -> usize
    requires { at + length (completed group) ≤ length buffer.old }
    ensures place { result ≡ at + length (completed group) }
    ensures front { take result buffer.new ≡ take at buffer.old ++ completed group }
    ensures behind { drop result buffer.new ≡ drop result buffer.old }
{
    match group {
        None => at,
        Some(Group::One(w)) => {
            buffer[at] = w;
            at + 1
        }
        Some(Group::Two(v, w)) => {
            buffer[at] = v;
            buffer[at + 1] = w;
            at + 2
        }
    }
}

// Whether a buffer of `room` blocks takes what would be written.
fn check_room(room: usize, needed: u64) -> Result<(), Fault>
    ensures { says result ≡ judged ((12, needed, nat_lt room needed) ∷ []) tt }
{
    if (room as u64) < needed {
        return Err(Fault::Piece(PieceFault::BufferTooShort(needed)));
    }
    Ok(())
}
