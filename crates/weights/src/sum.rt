// The kind `sum`: prices add up.
ghost use Rattle.std.specs.Prelude.{◌≡◌, ◌+◌, ◌-◌, ◌^◌, min, ◌++◌, Some, codes, decimal};
ghost use Rattle.std.proofs.Common.{rules};
ghost use Rattle.weights.specs.Sums.{sum};
ghost use Rattle.weights.specs.SumLaws.{sum_lawful};

use crate::{OrderedWeight, Weight};
use std::fmt;

// A number up to 2^64 - 1. Joining adds, and stays at the top where the sum would pass it. One generic struct for this and
// `Worst` would need a trait for the number and one for the join, and be longer than both.
#[derive(Clone, Copy, Debug, PartialEq, Eq, PartialOrd, Ord)]
pub struct Sum {
    pub total: u64,
}

impl Weight for Sum {
    ghost kind = { sum };

    fn nothing() -> Sum {
        Sum { total: 0 }
    }

    fn priced(price: u32) -> Sum {
        Sum {
            total: u64::from(price),
        }
    }

    fn join(self, other: Sum) -> Sum
        ensures joined { result ≡ sum.join self other }
        ensures capped { result.total ≡ min (self.total + other.total) (2 ^ 64 - 1) }
    {
        Sum {
            total: self.total.saturating_add(other.total),
        }
    }

    fn not_above(self, other: Sum) -> bool {
        self <= other
    }

    ghost lawful = { sum_lawful };
}

impl OrderedWeight for Sum {
    ghost ordered = { Prim.search rules };
}

impl fmt::Display for Sum {
    ghost output = { λ w. Some (codes "weight " ++ decimal w.total) };

    fn fmt<W: fmt::Write>(&self, f: &mut fmt::Formatter<W>) -> fmt::Result {
        let total = self.total;
        write!(f, "weight {total}")
    }
}
