// Lookup: one block of a stream, from the groups that hold it.
#![tactic(auto)]

ghost use Rattle.std.specs.Prelude.{◌≡◌, ℕ, ◌+◌, ◌*◌, ◌^◌, ◌<◌, ◌≤◌, ◌∷◌, ◌++◌, ◌==◌, cond, length, nat_lt, IfOk, slice_index, slice_range};
ghost use Rattle.std.specs.Result.{result_map_both};
ghost use Rattle.schedule.specs.Faults.{number_place, says, judged};
ghost use Rattle.writer.specs.Passes.{pair_of, second_pass_back};
ghost use Rattle.reader.specs.Back.{carrier_rows};
ghost use Rattle.access.specs.Lookup.{start, later, pair_in, large_rows, groups_rows, mark_rows, part_symbol, lookup_rows, symbol, LooksUp};

use reader::back::{first_pass_back, second_pass_back};
use schedule::fault::{Fault, LookupFault, SecondPassFault};
use schedule::interface::Schedule;
use std::ops::Range;
use writer::blocks::front_below;

// One group, or two in a row: a part of a stream, its blocks all below the base, and the index of its first block. The
// place and the pair that are asked for are no fields, since they are no part of what stands in the stream.
#[derive(Drop)]
struct Groups<'a, S: Schedule> {
    schedule: &'a S,
    part: &'a [u64],
    first: usize,
    ghost small: { (length part.now ≤ 4) × (first < 2 ^ 20) },
    ghost below: { (k : ℕ) → k < length part.now → slice_index part.now k < (S.ranges schedule.now).base },
}

impl<'a, S: Schedule> Groups<'a, S> {
    // The groups in this range of the stream. Refuses with 30 where the stream ends before them, and with 20.
    fn at(
        schedule: &'a S,
        stream: &'a [u64],
        range: Range<usize>,
        p: u64,
    ) -> Result<Groups<'a, S>, Fault>
        requires { (range.start ≤ range.end) × (range.end ≤ range.start + 4) × (range.start < 2 ^ 20) }
        ensures answers { let part = slice_range stream.now range.start range.end in result_map_both (λ x. x.first) number_place result ≡ judged ((30, p, nat_lt (length stream.now) range.end) ∷ large_rows (S.ranges schedule.now) range.start part) range.start }
        ensures holds { IfOk result (λ x. (x.schedule.now ≡ schedule.now) × (x.part.now ≡ slice_range stream.now range.start range.end)) }
    {
        let first = range.start;
        let Some(part) = stream.get(range) else {
            return Err(Fault::Lookup(LookupFault::NoSuchPlace(p)));
        };
        let front = front_below(schedule.base(), part);
        if front < part.len() {
            return Err(Fault::SecondPass(SecondPassFault::TakenTooLarge((first + front) as u64)));
        }
        Ok(Groups {
            schedule,
            part,
            first,
        })
    }

    // The number of one of the groups, from its one block or from its low and its high block.
    fn number(&self, group: &[u64]) -> u64
        requires size { (1 ≤ length group.now) × (length group.now ≤ 2) }
        requires below { (k : ℕ) → k < length group.now → slice_index group.now k < (S.ranges self.now.schedule.now).base }
        ensures { result ≡ cond (length group.now == 1) (slice_index group.now 0) (later (S.ranges self.now.schedule.now) group.now) }
    {
        match group {
            [only] => *only,
            [low, high] => *high * self.schedule.base() + *low,
            _ => unreachable!(),
        }
    }

    // The pair j, from groups j and j + 1. Refuses with 21, 22 or 23.
    fn pair(&self, j: u64) -> Result<(u64, u64), Fault>
        requires { (3 ≤ length self.now.part.now) × (j < 2 ^ 20) }
        ensures { let R = S.ranges self.now.schedule.now in says result ≡ judged (groups_rows R j self.now.first self.now.part.now) (pair_of R (pair_in R j self.now.part.now)) }
    {
        let (earlier, later) = self.part.split_at(self.part.len() - 2);
        let last = (self.first + self.part.len() - 1) as u64;
        let (carrier, _) = second_pass_back(self.schedule, j, self.number(earlier), last - 2)?;
        let (_, spill) = second_pass_back(self.schedule, j + 1, self.number(later), last)?;
        first_pass_back(self.schedule, j, carrier, spill, last)
    }

    // A symbol at place p, unless it is the end mark.
    fn block_of(&self, p: u64, symbol: u64) -> Result<u64, Fault>
        ensures { says result ≡ judged (mark_rows (S.ranges self.now.schedule.now) p symbol) symbol }
    {
        if symbol == self.schedule.end_mark() {
            return Err(Fault::Lookup(LookupFault::NoSuchPlace(p)));
        }
        Ok(symbol)
    }

    // The block at place p, in the pair j. Refuses with 21, 22, 23 or 30.
    fn in_pair(&self, p: u64, j: u64) -> Result<u64, Fault>
        requires { (3 ≤ length self.now.part.now) × (j < 2 ^ 20) × ((S.ranges self.now.schedule.now).lead < p) }
        ensures { let R = S.ranges self.now.schedule.now in let x = part_symbol R p j self.now.part.now in says result ≡ judged (groups_rows R j self.now.first self.now.part.now ++ mark_rows R p x) x }
    {
        let (s, t) = self.pair(j)?;
        let even = (p - 1 - self.schedule.lead()) % 2 == 0;
        self.block_of(p, if even { s } else { t })
    }

    // The block at place p, in the lead: the spill of group 0. Refuses with 21 or 30.
    fn in_lead(&self, p: u64) -> Result<u64, Fault>
        requires { length self.now.part.now ≡ 2 }
        ensures { let R = S.ranges self.now.schedule.now in let w = later R self.now.part.now in let x = (second_pass_back R 0 w).1 in says result ≡ judged (carrier_rows R 1 0 w ++ mark_rows R p x) x }
    {
        let (_, spill) = second_pass_back(self.schedule, 0, self.number(self.part), 1)?;
        self.block_of(p, spill)
    }
}

// The index of group j's first block.
fn start<S: Schedule>(schedule: &S, j: u64) -> usize
    requires { j < 2 ^ 20 }
    ensures { result ≡ start (S.ranges schedule.now) j }
{
    (2 * j + schedule.lead()).saturating_sub(1) as usize
}

// The block at place p, from 1, of a stream. Refuses with 30, 20, 21, 22 or 23.
pub fn lookup<S: Schedule>(schedule: &S, stream: &[u64], p: u64) -> Result<u64, Fault>
    ensures answers { says result ≡ judged (lookup_rows (S.ranges schedule.now) stream.now p) (symbol (S.ranges schedule.now) stream.now p) }
    ensures law { LooksUp (S.ranges schedule.now) stream.now p result }
{
    let lead = schedule.lead();
    if p == 0 || p > lead + 2 * schedule.steps() {
        return Err(Fault::Lookup(LookupFault::NoSuchPlace(p)));
    }
    if p <= lead {
        return Groups::at(schedule, stream, 0..2, p)?.in_lead(p);
    }
    let j = (p - 1 - lead) / 2;
    let range = start(schedule, j)..start(schedule, j + 2);
    Groups::at(schedule, stream, range, p)?.in_pair(p, j)
}
