ghost use Rattle.std.specs.Prelude.{◌≡◌, Some};
ghost use Rattle.schedule.specs.Faults.{number_place, printed};

use std::fmt;

// 1: a schedule cannot be made.
#[derive(Clone, Copy, Debug, PartialEq, Eq)]
pub enum ScheduleFault {
    // 1: the width is not 5, 8, 16 or 24. Place 0.
    WidthUnknown,
}

// 10 to 12, 40 and 41: what is offered, written or packed does not fit.
#[derive(Clone, Copy, Debug, PartialEq, Eq)]
pub enum PieceFault {
    // 10: an offered block is B or more. Place: the first such block's index in the piece, from 0.
    OfferedTooLarge(u64),
    // 11: the accepted blocks and the piece together exceed N. Place: how many more would be accepted.
    RecordingTooLong(u64),
    // 12: the buffer cannot take what would be written. Place: the length needed.
    BufferTooShort(u64),
    // 40: bytes are packed at width 5. Place 0.
    WidthHasNoBytes,
    // 41: the buffer cannot take the packed blocks. Place: the length needed.
    PackingTooShort(u64),
}

// 20 and 21: found as the second pass is taken back. Place, of these and of 22 to 26: for a reader the count of blocks
// that it accepted since it was new or since its last end, and for a lookup an index in the stream.
#[derive(Clone, Copy, Debug, PartialEq, Eq)]
pub enum SecondPassFault {
    // 20: a taken or looked-up block is B or more.
    TakenTooLarge(u64),
    // 21: a carrier is not below its limit.
    CarrierBeyondRange(u64),
}

// 22 and 23: found as the first pass is taken back.
#[derive(Clone, Copy, Debug, PartialEq, Eq)]
pub enum FirstPassFault {
    // 22: a pair's number is A × A or more.
    PairBeyondRange(u64),
    // 23: a pair's first symbol is the end mark, and its second is not.
    MarkBeforeBlock(u64),
}

// 24 to 26: a stream does not end as it has to.
#[derive(Clone, Copy, Debug, PartialEq, Eq)]
pub enum ClosingFault {
    // 24: a mark is found, and the group's carrier is not 0.
    ClosingNotZero(u64),
    // 25: the last group is complete, and no mark is found.
    NoMark(u64),
    // 26: a stop comes inside a stream.
    CutShort(u64),
}

// 30: a lookup has no block to answer.
#[derive(Clone, Copy, Debug, PartialEq, Eq)]
pub enum LookupFault {
    // 30: no block stands there. Place: the place asked.
    NoSuchPlace(u64),
}

// A fault names its layer, and inside the layer its own number and place. It is made by both cases: six `From`s and an
// `into` at each place would save no more than the layer's name.
#[derive(Clone, Copy, Debug, PartialEq, Eq)]
pub enum Fault {
    Schedule(ScheduleFault),
    Piece(PieceFault),
    SecondPass(SecondPassFault),
    FirstPass(FirstPassFault),
    Closing(ClosingFault),
    Lookup(LookupFault),
}

impl Fault {
    // The number that the refusal table gives this fault.
    pub fn number(&self) -> u64
        ensures { result ≡ (number_place self.now).0 }
    {
        match self {
            Fault::Schedule(ScheduleFault::WidthUnknown) => 1,
            Fault::Piece(PieceFault::OfferedTooLarge(_)) => 10,
            Fault::Piece(PieceFault::RecordingTooLong(_)) => 11,
            Fault::Piece(PieceFault::BufferTooShort(_)) => 12,
            Fault::SecondPass(SecondPassFault::TakenTooLarge(_)) => 20,
            Fault::SecondPass(SecondPassFault::CarrierBeyondRange(_)) => 21,
            Fault::FirstPass(FirstPassFault::PairBeyondRange(_)) => 22,
            Fault::FirstPass(FirstPassFault::MarkBeforeBlock(_)) => 23,
            Fault::Closing(ClosingFault::ClosingNotZero(_)) => 24,
            Fault::Closing(ClosingFault::NoMark(_)) => 25,
            Fault::Closing(ClosingFault::CutShort(_)) => 26,
            Fault::Lookup(LookupFault::NoSuchPlace(_)) => 30,
            Fault::Piece(PieceFault::WidthHasNoBytes) => 40,
            Fault::Piece(PieceFault::PackingTooShort(_)) => 41,
        }
    }

    // Where it was met: an index, a count or a length, as its case says.
    pub fn place(&self) -> u64
        ensures { result ≡ (number_place self.now).1 }
    {
        match self {
            Fault::Schedule(ScheduleFault::WidthUnknown) => 0,
            Fault::Piece(PieceFault::WidthHasNoBytes) => 0,
            Fault::Piece(PieceFault::OfferedTooLarge(place)) => *place,
            Fault::Piece(PieceFault::RecordingTooLong(place)) => *place,
            Fault::Piece(PieceFault::BufferTooShort(place)) => *place,
            Fault::Piece(PieceFault::PackingTooShort(place)) => *place,
            Fault::SecondPass(SecondPassFault::TakenTooLarge(place)) => *place,
            Fault::SecondPass(SecondPassFault::CarrierBeyondRange(place)) => *place,
            Fault::FirstPass(FirstPassFault::PairBeyondRange(place)) => *place,
            Fault::FirstPass(FirstPassFault::MarkBeforeBlock(place)) => *place,
            Fault::Closing(ClosingFault::ClosingNotZero(place)) => *place,
            Fault::Closing(ClosingFault::NoMark(place)) => *place,
            Fault::Closing(ClosingFault::CutShort(place)) => *place,
            Fault::Lookup(LookupFault::NoSuchPlace(place)) => *place,
        }
    }
}

// X, the number and the place.
impl fmt::Display for Fault {
    ghost output = { λ fault. Some (printed fault) };

    fn fmt<W: fmt::Write>(&self, f: &mut fmt::Formatter<W>) -> fmt::Result {
        let number = self.number();
        let place = self.place();
        write!(f, "X {number} {place}")
    }
}

// A refused call that would have used a value up: the value, as it was, and the fault.
#[derive(Drop)]
pub struct Refused<T> {
    pub kept: T,
    pub fault: Fault,
}
