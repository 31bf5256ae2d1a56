// The two passes, over any schedule. Beyond the last step, where there is no carrier range, the first answers 0 and 0: no
// recording gets there, so an Option would be taken apart at each call for nothing.
ghost use Rattle.std.specs.Prelude.{◌≡◌, ◌+◌, ◌*◌, ◌^◌, ◌<◌, ◌≤◌};
ghost use Rattle.writer.specs.Stream.{first_pass, group};
ghost use Rattle.writer.specs.Holding.{group_blocks};

use crate::held::Group;
use schedule::interface::Schedule;

// The first pass on pair j: the carrier and the spill of (s, t), both in one answer.
pub(crate) fn first_pass<S: Schedule>(schedule: &S, j: u64, s: u64, t: u64) -> (u64, u64)
    requires { (s ≤ 16777216) × (t ≤ 16777216) }
    ensures exact { j < (S.ranges schedule.now).steps → result ≡ first_pass (S.ranges schedule.now) j s t }
    ensures beyond { (S.ranges schedule.now).steps ≤ j → result ≡ (0, 0) }
    ensures small { (result.0 ≤ 16777216) × (result.1 < 2 ^ 48) }
{
    let z = t * schedule.alphabet() + s;
    let range = schedule.carrier(j);
    if range == 0 {
        return (0, 0);
    }
    (z % range, z / range)
}

// The second pass on group j: its blocks.
pub(crate) fn second_pass<S: Schedule>(schedule: &S, j: u64, carrier: u64, spill: u64) -> Group
    requires { (j < 2 ^ 32) × (carrier ≤ 16777216) × (spill < 2 ^ 48) }
    ensures { group_blocks result ≡ group (S.ranges schedule.now) j carrier spill }
{
    let w = carrier * schedule.spill(j) + spill;
    if schedule.lead() + j == 0 {
        return Group::One(w);
    }
    let base = schedule.base();
    Group::Two(w % base, w / base)
}
