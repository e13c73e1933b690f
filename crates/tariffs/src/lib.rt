// Tariffs: what gives the triangles and folds of a loop their prices, and how it may change.
#![tactic(auto)]

ghost use Rattle.std.specs.Prelude.{◌≡◌, [], OnErr};
ghost use Rattle.tariffs.specs.declared.calls.Change.TheVariants.{Amend, Exchange};
ghost use Rattle.tariffs.specs.Views.{Amended, Exchanged, Proper, View};
ghost use Rattle.tariffs.specs.Meanings.{Chains, Meaning, Obeys, after};

use terms::{Fold, Refusal, Triangle};

mod calls;
mod comparison;

pub use calls::{Call, Change, Reply};
pub use comparison::{answer_alike, make_call};

// What prices the triangles and folds of one loop, by the head in use.
pub trait Tariff {
    // Everything that it answers.
    ghost view: { Self → View };

    // How many corners the loop has.
    fn corners(&self) -> u16
        ensures { result ≡ (view self.now).corners };

    // Whether it knows the head with this serial.
    fn knows(&self, serial: u32) -> bool
        ensures { result ≡ (view self.now).knows serial };

    // The serial of the head in use.
    fn in_use(&self) -> u32
        ensures { result ≡ (view self.now).in_use };

    // The price of a triangle, if it has one.
    fn price(&self, triangle: Triangle) -> Option<u32>
        ensures { result ≡ (view self.now).price triangle };

    // The price of a fold, if it has one.
    fn fold_price(&self, fold: Fold) -> Option<u32>
        ensures { result ≡ (view self.now).fold_price fold };

    // Its loop has 3 to 64 corners, the head in use is known, and only triangles and folds of the loop have prices,
    // none above the limit.
    ghost proper: { (t : Self) → Proper (view t) };
}

// A tariff that takes two changes, amend and exchange. Four of their clauses are alike; one definition for the four would be
// longer at each use than the clause that is cited.
pub trait Amendable: Tariff {
    // What it answers now and after any list of changes.
    ghost meaning: { Self → Meaning };

    // Holds of the tariff before and after a call: memory that it was lent, beyond what its meaning reads, is as it was.
    ghost keeps: { Self → Self → Type 0 };

    // Holds of the tariff before and after a call: nothing of it was altered, nor of any memory that it was lent.
    ghost unaltered: { Self → Self → Type 0 };

    // Its meaning begins with what it answers now. The call does nothing: its contract hands this fact to the caller. A law
    // would ask more, as it is owed at all numbers of the logic, those too that no program can hold.
    fn present(&self)
        ensures { (meaning self.now []).view ≡ Self.view self.now };

    // Changes what concerns one corner, by three numbers whose meaning is the tariff's own; a struct of them would be taken
    // apart at once.
    fn amend(&mut self, corner: u16, x: i32, y: i32, z: i32) -> Result<(), Refusal>
        ensures answer { result ≡ (meaning self.old []).answer (Amend corner x y z) }
        ensures left { meaning self.new ≡ after (Amend corner x y z) (meaning self.old) }
        ensures prices { Amended result corner (Self.view self.old) (Self.view self.new) }
        ensures beyond { keeps self.old self.new }
        ensures refused { OnErr result (unaltered self.old self.new) };

    // Puts another head in use.
    fn exchange(&mut self, serial: u32) -> Result<(), Refusal>
        ensures answer { result ≡ (meaning self.old []).answer (Exchange serial) }
        ensures left { meaning self.new ≡ after (Exchange serial) (meaning self.old) }
        ensures prices { Exchanged result serial (Self.view self.old) (Self.view self.new) }
        ensures beyond { keeps self.old self.new }
        ensures refused { OnErr result (unaltered self.old self.new) };

    // The laws of amend and exchange.
    ghost obeys: { (t : Self) → Obeys (meaning t) };

    // What is kept by each of several calls in a row is kept by all of them.
    ghost chains: { Chains keeps };

    // What each of several calls in a row left unaltered, all of them did.
    ghost steady: { Chains unaltered };
}
