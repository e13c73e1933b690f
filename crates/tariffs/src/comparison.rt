// Makes calls of tariffs, and compares what two tariffs answer.
ghost use Rattle.std.specs.Prelude.{◌≡◌, ◌↔◌, ◌≢◌, IsTrue};
ghost use Rattle.tariffs.specs.Replies.{AnswerAlike, EqualIfAlike, leaves, leaves_all, reply};

use crate::{Amendable, Call, Change, Reply};

// Makes one call. Calls are values and no closures, so that definitions speak of lists of them. The clauses are those of
// the changes, for any call: one definition for all of them would be longer than the clause that is cited.
pub fn make_call<T: Amendable>(tariff: &mut T, call: Call) -> Reply
    ensures answer { result ≡ reply (T.meaning tariff.old) call }
    ensures left { T.meaning tariff.new ≡ leaves (T.meaning tariff.old) call }
    ensures beyond { T.keeps tariff.old tariff.new }
    ensures unaltered { result ≢ Reply.Answered (Ok tt) → T.unaltered tariff.old tariff.new }
{
    tariff.present();
    match call {
        Call::Corners => Reply::Number(tariff.corners()),
        Call::Knows(serial) => Reply::Known(tariff.knows(serial)),
        Call::InUse => Reply::Serial(tariff.in_use()),
        Call::Price(triangle) => Reply::Priced(tariff.price(triangle)),
        Call::FoldPrice(fold) => Reply::Priced(tariff.fold_price(fold)),
        Call::Alter(Change::Amend { corner, x, y, z }) => Reply::Answered(tariff.amend(
            corner, x, y, z,
        )),
        Call::Alter(Change::Exchange { serial }) => Reply::Answered(tariff.exchange(serial)),
    }
}

// Makes the same calls of two tariffs, and says whether both answered each of them alike. Two tariffs of equal meaning
// do, whatever the calls; and where two do for all lists of calls, their meanings are equal.
pub fn answer_alike<S: Amendable, T: Amendable>(
    first: &mut S,
    second: &mut T,
    calls: &[Call],
) -> bool
    ensures answer { IsTrue result ↔ (AnswerAlike (S.meaning first.old) (T.meaning second.old) calls.now) }
    ensures same { S.meaning first.old ≡ T.meaning second.old → IsTrue result }
    ensures observable { EqualIfAlike (S.meaning first.old) (T.meaning second.old) }
    ensures first_left { S.meaning first.new ≡ leaves_all (S.meaning first.old) calls.now }
    ensures second_left { T.meaning second.new ≡ leaves_all (T.meaning second.old) calls.now }
    ensures beyond { (S.keeps first.old first.new) × (T.keeps second.old second.new) }
{
    let mut alike = true;
    for call in calls {
        let one = make_call(first, *call);
        let other = make_call(second, *call);
        alike &= one == other;
    }
    alike
}
