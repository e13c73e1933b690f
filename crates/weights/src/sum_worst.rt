// The kind `sum-worst`: prices add up, and of equal sums the one whose highest price is lower is lighter.
ghost use Rattle.std.specs.Prelude.{◌≡◌, Some};
ghost use Rattle.std.proofs.Common.{rules};
ghost use Rattle.weights.specs.SumWorsts.{capped, sum_worst, written};
ghost use Rattle.weights.specs.SumWorstLaws.{sum_worst_lawful};

use crate::{OrderedWeight, Weight};
use std::fmt;

// A sum of prices with the highest of them, or top, which is above every pair: what a sum beyond 2^64 - 1 becomes. It is
// no `Option`, whose `None` would say that there is no weight, and is below every `Some`.
#[derive(Clone, Copy, Debug, PartialEq, Eq, PartialOrd, Ord)]
pub enum SumWorst {
    Pair { sum: u64, worst: u32 },
    Top,
}

impl Weight for SumWorst {
    ghost kind = { sum_worst };

    fn nothing() -> SumWorst {
        SumWorst::Pair { sum: 0, worst: 0 }
    }

    fn priced(price: u32) -> SumWorst {
        SumWorst::Pair {
            sum: u64::from(price),
            worst: price,
        }
    }

    fn join(self, other: SumWorst) -> SumWorst
        ensures joined { result ≡ sum_worst.join self other }
        ensures capped { result ≡ capped self other }
    {
        match (self, other) {
            (SumWorst::Pair { sum: a, worst: p }, SumWorst::Pair { sum: b, worst: q }) => {
                let worst = p.max(q);
                a.checked_add(b)
                    .map_or(SumWorst::Top, |sum| SumWorst::Pair { sum, worst })
            }
            _ => SumWorst::Top,
        }
    }

    fn not_above(self, other: SumWorst) -> bool {
        self <= other
    }

    ghost lawful = { sum_worst_lawful };
}

impl OrderedWeight for SumWorst {
    ghost ordered = { Prim.search rules };
}

impl fmt::Display for SumWorst {
    ghost output = { λ w. Some (written w) };

    fn fmt<W: fmt::Write>(&self, f: &mut fmt::Formatter<W>) -> fmt::Result {
        match *self {
            SumWorst::Pair { sum, worst } => write!(f, "weight {sum} {worst}"),
            SumWorst::Top => write!(f, "weight top"),
        }
    }
}
