// The lines of a job: which bytes are an order, and what it says.
#![tactic(auto)]

ghost use Rattle.std.specs.Prelude.{◌++◌};
ghost use Rattle.lines.specs.Grammar.{Reads, OneReading};
ghost use Rattle.lines.specs.Orders.{OrderIn, TextIn, KindIn};
ghost use Rattle.lines.specs.Words.{spelling};

use terms::Refusal;

mod numbers;
mod words;

use numbers::numbers;
use words::{Word, split_word};

// The kinds of weight that a close can name.
#[derive(Clone, Copy, Debug, PartialEq, Eq)]
pub enum Kind {
    Sum,
    Worst,
    SumWorst,
}

// What a line says. A note keeps its text where it stands in the block. By a rule of the project orders
// hold their numbers plain, each by its name, of ten digits at most; ranges are tested where they are used.
#[derive(Clone, Copy, Debug, PartialEq, Eq)]
pub enum Line<'a> {
    Note(&'a [u8]),
    Head {
        serial: i64,
        reach: i64,
        stiffness: i64,
    },
    Use {
        serial: i64,
    },
    Corner {
        x: i64,
        y: i64,
        z: i64,
    },
    Close(Kind),
    Move {
        corner: i64,
        x: i64,
        y: i64,
        z: i64,
    },
    Ban {
        i: i64,
        k: i64,
        j: i64,
    },
    Lift {
        i: i64,
        k: i64,
        j: i64,
    },
    Fill,
    Standing,
}

// The order that the bytes of a line spell, or the refusal of a line that is no order.
pub fn read_line(bytes: &[u8]) -> Result<Line<'_>, Refusal>
    ensures reads { Reads bytes.now result }
    ensures alone { OneReading }
{
    order_in(bytes).ok_or(Refusal::NotAnOrder)
}

// The order that the bytes spell, if they spell one.
fn order_in(bytes: &[u8]) -> Option<Line<'_>>
    ensures { OrderIn bytes.now result }
{
    let (word, rest) = split_word(bytes)?;
    order_after(word, rest)
}

// The order that begins with the word and goes on with the rest.
fn order_after(word: Word, rest: &[u8]) -> Option<Line<'_>>
    ensures { OrderIn (spelling word ++ rest.now) result }
{
    match word {
        Word::Note => Some(Line::Note(text_in(rest)?)),
        Word::Head => {
            let [serial, reach, stiffness] = numbers::<3>(rest)?;
            Some(Line::Head {
                serial,
                reach,
                stiffness,
            })
        }
        Word::Use => {
            let [serial] = numbers::<1>(rest)?;
            Some(Line::Use { serial })
        }
        Word::Corner => {
            let [x, y, z] = numbers::<3>(rest)?;
            Some(Line::Corner { x, y, z })
        }
        Word::Close => Some(Line::Close(kind_in(rest)?)),
        Word::Move => {
            let [corner, x, y, z] = numbers::<4>(rest)?;
            Some(Line::Move { corner, x, y, z })
        }
        Word::Ban => {
            let [i, k, j] = numbers::<3>(rest)?;
            Some(Line::Ban { i, k, j })
        }
        Word::Lift => {
            let [i, k, j] = numbers::<3>(rest)?;
            Some(Line::Lift { i, k, j })
        }
        Word::Fill => rest.is_empty().then_some(Line::Fill),
        Word::Standing => rest.is_empty().then_some(Line::Standing),
    }
}

// The text of a note: what follows one space, if it says anything.
fn text_in(rest: &[u8]) -> Option<&[u8]>
    ensures { TextIn rest.now result }
{
    match rest {
        [b' ', text @ ..] if !text.is_empty() => Some(text),
        _ => None,
    }
}

// The kind that stands by its name after one space. A `TryFrom` would answer a `Result`, of which
// its one caller makes an `Option` again.
fn kind_in(rest: &[u8]) -> Option<Kind>
    ensures { KindIn rest.now result }
{
    match rest {
        b" sum" => Some(Kind::Sum),
        b" worst" => Some(Kind::Worst),
        b" sum-worst" => Some(Kind::SumWorst),
        _ => None,
    }
}
