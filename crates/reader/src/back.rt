// The passes taken back, over any schedule. `place` is the place of a refusal. They are no methods of a struct of
// schedule, step and place, since each call has another step or place, and would make one for itself.
ghost use Rattle.std.specs.Prelude.{◌≡◌};
ghost use Rattle.schedule.specs.Faults.{says, judged};
ghost use Rattle.writer.specs.Passes.{pair_number, pair_of, second_pass_back};
ghost use Rattle.reader.specs.Back.{limit, carrier_rows, pair_rows};

use schedule::fault::{Fault, FirstPassFault, SecondPassFault};
use schedule::interface::Schedule;

// The limit of the carrier of group j: 0 where there is no such group, as a schedule answers it.
fn limit<S: Schedule>(schedule: &S, j: u64) -> u64
    ensures { result ≡ limit (S.ranges schedule.now) j }
{
    if j == schedule.steps() {
        1
    } else {
        schedule.carrier(j)
    }
}

// The carrier r(j) and the spill y(j) of group j, from its number w. Refuses with 21.
pub fn second_pass_back<S: Schedule>(
    schedule: &S,
    j: u64,
    w: u64,
    place: u64,
) -> Result<(u64, u64), Fault>
    ensures { says result ≡ judged (carrier_rows (S.ranges schedule.now) place j w) (second_pass_back (S.ranges schedule.now) j w) }
{
    let range = schedule.spill(j);
    if range > 0 && w / range < limit(schedule, j) {
        Ok((w / range, w % range))
    } else {
        Err(Fault::SecondPass(SecondPassFault::CarrierBeyondRange(place)))
    }
}

// The pair of the carrier r(j) and the spill y(j + 1). Refuses with 22, then with 23.
pub fn first_pass_back<S: Schedule>(
    schedule: &S,
    j: u64,
    carrier: u64,
    spill: u64,
    place: u64,
) -> Result<(u64, u64), Fault>
    ensures { says result ≡ judged (pair_rows (S.ranges schedule.now) place (pair_number (S.ranges schedule.now) j carrier spill)) (pair_of (S.ranges schedule.now) (pair_number (S.ranges schedule.now) j carrier spill)) }
{
    let symbols = schedule.alphabet();
    let mark = schedule.end_mark();
    let z = spill
        .saturating_mul(schedule.carrier(j))
        .saturating_add(carrier);
    if z >= symbols * symbols {
        return Err(Fault::FirstPass(FirstPassFault::PairBeyondRange(place)));
    }
    let (s, t) = (z % symbols, z / symbols);
    if s == mark && t != mark {
        return Err(Fault::FirstPass(FirstPassFault::MarkBeforeBlock(place)));
    }
    Ok((s, t))
}
