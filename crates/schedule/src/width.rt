ghost use Rattle.std.specs.Prelude.{◌≡◌, ◌^◌};
ghost use Rattle.schedule.specs.Widths.{bits_of, Reads};

use crate::fault::{Fault, ScheduleFault};

// A width that is built, in bits.
#[derive(Clone, Copy, Debug, PartialEq, Eq)]
pub enum Width {
    Five = 5,
    Eight = 8,
    Sixteen = 16,
    TwentyFour = 24,
}

// The width of that many bits; any but 5, 8, 16 and 24 is refused with 1.
impl TryFrom<u64> for Width {
    type Error = Fault;

    ghost try_from_gives = { Reads };

    fn try_from(bits: u64) -> Result<Width, Fault> {
        match bits {
            5 => Ok(Width::Five),
            8 => Ok(Width::Eight),
            16 => Ok(Width::Sixteen),
            24 => Ok(Width::TwentyFour),
            _ => Err(Fault::Schedule(ScheduleFault::WidthUnknown)),
        }
    }
}

impl Width {
    // How many bits a block has.
    pub fn bits(&self) -> u64
        ensures { result ≡ bits_of self.now }
    {
        *self as u64
    }

    // B, two to the power of the width.
    pub fn base(&self) -> u64
        ensures { result ≡ 2 ^ bits_of self.now }
    {
        1 << self.bits()
    }
}
