// A tiny kind of weight: whether anything is charged at all. Its type has no order of its own, as a kind needs none.
ghost use Rattle.tarifftests.specs.Charges.{charged};
ghost use Rattle.tarifftests.specs.ChargeLaws.{charged_lawful};

use weights::Weight;

// Whether a price is above zero.
#[derive(Clone, Copy, Debug, PartialEq, Eq)]
pub struct Charged {
    pub any: bool,
}

impl Weight for Charged {
    ghost kind = { charged };

    fn nothing() -> Charged {
        Charged { any: false }
    }

    fn priced(price: u32) -> Charged {
        Charged { any: price > 0 }
    }

    fn join(self, other: Charged) -> Charged {
        Charged {
            any: self.any || other.any,
        }
    }

    fn not_above(self, other: Charged) -> bool {
        !self.any || other.any
    }

    ghost lawful = { charged_lawful };
}
