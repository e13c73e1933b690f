// Kinds of weight: what makes one fill lighter than another.
#![tactic(auto)]

ghost use Rattle.std.specs.Prelude.{◌≡◌};
ghost use Rattle.std.specs.Ordering.{is_le};
ghost use Rattle.weights.specs.Kinds.{Kind, Lawful};

mod sum;
mod sum_worst;
mod worst;

pub use sum::Sum;
pub use sum_worst::SumWorst;
pub use worst::Worst;

// A weight of some kind. The weight of a fill joins the weights of its prices.
pub trait Weight: Copy {
    // The kind: what the four functions below answer.
    ghost kind: { Kind Self };

    // The weight of no prices.
    fn nothing() -> Self
        ensures { result ≡ kind.nothing };

    // The weight of one price.
    fn priced(price: u32) -> Self
        ensures { result ≡ kind.priced price };

    // Both weights together.
    fn join(self, other: Self) -> Self
        ensures { result ≡ kind.join self other };

    // Whether it is lighter than the other or equal to it. A body here, `self <= other`, would ask every kind for an order.
    fn not_above(self, other: Self) -> bool
        ensures { result ≡ kind.not_above self other };

    // The laws of the kind, for all its weights.
    ghost lawful: { Lawful kind };
}

// A weight whose `<=` is the order of its kind. A kind need not have one.
pub trait OrderedWeight: Weight + Ord {
    ghost ordered: { (a b : Self) → is_le (Self.Ord.cmp a b) ≡ Self.Weight.kind.not_above a b };
}
