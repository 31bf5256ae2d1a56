// SOLE and LOSE: ranges that leave the base by four more at each step.
ghost use Rattle.std.specs.Prelude.{◌≡◌, true, false, MatchResult};
ghost use Rattle.schedule.specs.Faults.{number_place};
ghost use Rattle.schedule.specs.Kinds.{known, kind, NoFurtherStep};
ghost use Rattle.schedule.specs.Widths.{bits_of};
ghost use Rattle.schedule.specs.Laws.{kind_lawful};

use crate::fault::Fault;
use crate::interface::Schedule;
use crate::width::Width;

// C(j) = B − u and Y(j) = B + u, where u is 4j + lead, and Y(0) = 1 where that is 0. A symbol leads where LEADS holds.
#[derive(Clone, Copy, Debug, PartialEq, Eq)]
pub struct Fourfold<const LEADS: bool> {
    width: Width,
}

// Lead 0.
pub type Sole = Fourfold<false>;

// Lead 1.
pub type Lose = Fourfold<true>;

impl<const LEADS: bool> Fourfold<LEADS> {
    // The schedule at width 5, 8, 16 or 24; any other number may be asked for, and is refused with 1.
    pub fn new(width: u64) -> Result<Fourfold<LEADS>, Fault>
        ensures { MatchResult result (λ s. (known width ≡ true) × (⟦<Fourfold<LEADS> as Schedule>⟧.ranges s ≡ kind LEADS width) × NoFurtherStep (kind LEADS width)) (λ f. (known width ≡ false) × (number_place f ≡ (1, 0))) }
    {
        Ok(Fourfold {
            width: Width::try_from(width)?,
        })
    }
}

impl<const LEADS: bool> Schedule for Fourfold<LEADS> {
    ghost ranges = { λ s. kind LEADS (bits_of s.width) };

    ghost lawful = { λ s. kind_lawful LEADS s.width };

    fn base(&self) -> u64 {
        self.width.base()
    }

    fn lead(&self) -> u64 {
        u64::from(LEADS)
    }

    fn steps(&self) -> u64 {
        match (self.width, LEADS) {
            (Width::Five, _) => 2,
            (Width::Eight, false) => 6,
            (Width::Eight, true) => 5,
            (Width::Sixteen, false) => 91,
            (Width::Sixteen, true) => 90,
            (Width::TwentyFour, _) => 1448,
        }
    }

    fn carrier(&self, j: u64) -> u64 {
        if j < self.steps() {
            self.base() - (4 * j + self.lead())
        } else {
            0
        }
    }

    fn spill(&self, j: u64) -> u64 {
        if j == 0 && !LEADS {
            1
        } else if j <= self.steps() {
            self.base() + (4 * j + self.lead())
        } else {
            0
        }
    }
}
