// The kind `worst`: the highest price counts.
ghost use Rattle.std.specs.Prelude.{◌++◌, Some, codes, decimal};
ghost use Rattle.std.proofs.Common.{rules};
ghost use Rattle.weights.specs.Worsts.{worst};
ghost use Rattle.weights.specs.WorstLaws.{worst_lawful};

use crate::{OrderedWeight, Weight};
use std::fmt;

// A number up to 2^32 - 1. Joining takes the larger. No generic struct serves this and `Sum`, as is said there.
#[derive(Clone, Copy, Debug, PartialEq, Eq, PartialOrd, Ord)]
pub struct Worst {
    pub price: u32,
}

impl Weight for Worst {
    ghost kind = { worst };

    fn nothing() -> Worst {
        Worst { price: 0 }
    }

    fn priced(price: u32) -> Worst {
        Worst { price }
    }

    fn join(self, other: Worst) -> Worst {
        Worst {
            price: self.price.max(other.price),
        }
    }

    fn not_above(self, other: Worst) -> bool {
        self <= other
    }

    ghost lawful = { worst_lawful };
}

impl OrderedWeight for Worst {
    ghost ordered = { Prim.search rules };
}

impl fmt::Display for Worst {
    ghost output = { λ w. Some (codes "weight " ++ decimal w.price) };

    fn fmt<W: fmt::Write>(&self, f: &mut fmt::Formatter<W>) -> fmt::Result {
        let price = self.price;
        write!(f, "weight {price}")
    }
}
