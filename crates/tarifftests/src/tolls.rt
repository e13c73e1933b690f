// A tiny tariff: a loop of four corners, each with a toll that lies in memory of the caller's.
ghost use Rattle.std.specs.Prelude.{◌≡◌};
ghost use Rattle.std.specs.Option.{ok_or};
ghost use Rattle.terms.specs.declared.Refusal.TheVariants.{SerialUnknown};
ghost use Rattle.tariffs.specs.Lent.{SameFrom, same_from, with_value};
ghost use Rattle.tariffs.specs.States.{meant};
ghost use Rattle.tarifftests.specs.Tolls.{accepted, head_with, outlook, serial_of, state, toll, toll_of, view_of};
ghost use Rattle.tarifftests.specs.TollLaws.{obeys_all, proper_view};

use tariffs::{Amendable, Tariff};
use terms::{Fold, Refusal, Triangle};

// The heads that it knows, with their serials.
#[derive(Clone, Copy, Debug, PartialEq, Eq)]
pub enum Head {
    First = 1,
    Second = 2,
}

impl Head {
    fn serial(self) -> u32
        ensures { result ≡ serial_of self }
    {
        self as u32
    }
}

impl TryFrom<u32> for Head {
    type Error = Refusal;

    ghost try_from_gives = { λ serial r. r ≡ ok_or (head_with serial) SerialUnknown };

    fn try_from(serial: u32) -> Result<Head, Refusal> {
        match serial {
            1 => Ok(Head::First),
            2 => Ok(Head::Second),
            _ => Err(Refusal::SerialUnknown),
        }
    }
}

// The first four numbers are the tolls of the corners, each counted as at most 1000. A triangle costs the tolls of its
// corners and a fold that of its outer corner, times the serial of the head in use.
#[derive(Drop)]
pub struct Tolls<'a> {
    pub tolls: &'a mut [u16],
    pub head: Head,
}

// The toll that a number stands for, if it is one.
fn toll_of(x: i32) -> Option<u16>
    ensures { result ≡ toll_of x }
{
    u16::try_from(x).ok().filter(|toll| *toll <= 1000)
}

impl<'a> Tolls<'a> {
    // Over this memory, with the first head in use.
    pub fn new(tolls: &'a mut [u16]) -> Tolls<'a>
        ensures tolls { result.tolls ≡ tolls.entry }
        ensures head { result.head ≡ Head.First }
    {
        Tolls {
            tolls,
            head: Head::First,
        }
    }

    fn toll(&self, corner: u16) -> u32
        ensures { result ≡ toll self.now.tolls.now corner }
    {
        let toll = self.tolls.get(usize::from(corner)).copied().unwrap_or(0);
        u32::from(toll.min(1000))
    }
}

impl<'a> Tariff for Tolls<'a> {
    ghost view = { λ s. view_of (state s.tolls.now s.head) };

    ghost proper = { λ s. proper_view (state s.tolls.now s.head) };

    fn corners(&self) -> u16 {
        4
    }

    fn knows(&self, serial: u32) -> bool {
        Head::try_from(serial).is_ok()
    }

    fn in_use(&self) -> u32 {
        self.head.serial()
    }

    fn price(&self, triangle: Triangle) -> Option<u32> {
        if !triangle.is_of_loop(4) {
            return None;
        }
        let tolls = self.toll(triangle.low) + self.toll(triangle.mid) + self.toll(triangle.high);
        Some(self.in_use() * tolls)
    }

    fn fold_price(&self, fold: Fold) -> Option<u32> {
        if !fold.is_of_loop(4) {
            return None;
        }
        Some(self.in_use() * self.toll(fold.outer))
    }
}

impl<'a> Amendable for Tolls<'a> {
    ghost meaning = { λ s. meant outlook accepted (state s.tolls.now s.head) };

    ghost keeps = { λ s t. SameFrom 4 s.tolls t.tolls };

    ghost unaltered = { λ s t. (t.head ≡ s.head) × SameFrom 0 s.tolls t.tolls };

    ghost obeys = { λ s. obeys_all (state s.tolls.now s.head) };

    ghost chains = { same_from 4 (λ s. s.tolls) };

    ghost steady = { with_value (λ s. s.head) (same_from 0 (λ s. s.tolls)) };

    fn present(&self) {}

    fn amend(&mut self, corner: u16, x: i32, _y: i32, _z: i32) -> Result<(), Refusal> {
        let toll = toll_of(x).ok_or(Refusal::OutOfRange)?;
        // One condition has both bounds; `get_mut` would test one of them.
        if corner >= 4 || usize::from(corner) >= self.tolls.len() {
            return Err(Refusal::BadCorner);
        }
        self.tolls[usize::from(corner)] = toll;
        Ok(())
    }

    fn exchange(&mut self, serial: u32) -> Result<(), Refusal> {
        self.head = Head::try_from(serial)?;
        Ok(())
    }
}
