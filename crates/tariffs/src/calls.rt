// The calls of a tariff as values, so that there are lists of them.
use terms::{Fold, Refusal, Triangle};

// A call that may alter an amendable tariff, with its arguments as the call takes them: a struct of the three numbers would
// be taken apart at once.
#[derive(Clone, Copy, Debug)]
pub enum Change {
    Amend { corner: u16, x: i32, y: i32, z: i32 },
    Exchange { serial: u32 },
}

// Any call of an amendable tariff.
#[derive(Clone, Copy, Debug)]
pub enum Call {
    Corners,
    Knows(u32),
    InUse,
    Price(Triangle),
    FoldPrice(Fold),
    Alter(Change),
}

// What a call answers.
#[derive(Clone, Copy, Debug, PartialEq, Eq)]
pub enum Reply {
    Number(u16),
    Known(bool),
    Serial(u32),
    Priced(Option<u32>),
    Answered(Result<(), Refusal>),
}
