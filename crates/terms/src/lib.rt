// The words that every part of Mokdriz shares: triangles and folds of a loop, limits, and the sixteen refusals.
#![tactic(auto)]

ghost use Rattle.std.specs.Prelude.{◌≡◌};
ghost use Rattle.terms.specs.Refusals.{number_of};

mod triangles;

pub use triangles::{Fold, Triangle};

// A loop is a closed ring of corners, numbered from 0. It has this many at least and at most.
pub const MIN_CORNERS: u16 = 3;

pub const MAX_CORNERS: u16 = 64;

// The highest price. A price is a whole number from 0 to this, or none.
pub const MAX_PRICE: u32 = 1_000_000_000;

// Why a call or a line of a job was not carried out. Tests are made in the order of the numbers.
#[derive(Clone, Copy, Debug, PartialEq, Eq)]
pub enum Refusal {
    // The input ends inside a block.
    EndsInsideBlock = 1,
    // The block's check is not the sum of its bytes.
    CheckDiffers = 2,
    // The block's number is not the next one.
    BlockNotNext = 3,
    // The used length is above 504, the text does not end in byte 10, or an unused byte is not zero.
    BadText = 4,
    // The line is no order, or names no kind of weight.
    NotAnOrder = 5,
    // An order that needs a loop being laid came after its close, or one that needs a closed loop before it.
    OutOfTurn = 6,
    // A number is outside its range.
    OutOfRange = 7,
    // One corner, head, ban or sheet entry too many.
    TooMany = 8,
    // The head's serial is already known.
    SerialKnown = 9,
    // The serial is unknown, or no head is in use at the close.
    SerialUnknown = 10,
    // A close with fewer than 3 corners, or a sheet whose number of corners is outside 3 to 64.
    BadCornerCount = 11,
    // A corner is not one of the loop's, or corners of a triangle or fold are out of order.
    BadCorner = 12,
    // A ban that stands or an entry that is listed came again, or one that is absent was lifted or amended.
    RepeatedOrAbsent = 13,
    // The caller's memory is too short.
    MemoryTooShort = 14,
    // The loop has no legal fill.
    NoLegalFill = 15,
    // The weighed list is no legal fill.
    NotALegalFill = 16,
}

impl Refusal {
    // The number, 1 to 16, by which a refusal is known outside.
    pub fn number(self) -> u8
        ensures { result ≡ number_of self }
    {
        self as u8
    }
}
