// The three kinds of weight.
use std::alloc::Global;
use std::test::Fail;
use weights::{Sum, SumWorst, Weight, Worst};

const TOP: u64 = 18_446_744_073_709_551_615;

fn pair(sum: u64, worst: u32) -> SumWorst {
    SumWorst::Pair { sum, worst }
}

#[test]
fn sums_stick_at_the_top(rt: HostRuntime) {
    let top = Sum { total: TOP };
    assert!(rt; Sum { total: 5 }.join(Sum { total: 7 }) == Sum { total: 12 });
    assert!(rt; Sum { total: TOP - 7 }.join(Sum { total: 7 }) == top);
    assert!(rt; Sum { total: TOP - 7 }.join(Sum { total: 8 }) == top);
    assert!(rt; top.join(top) == top);
    assert!(rt; top.join(Sum::nothing()) == top);
    assert!(rt; Sum::priced(1_000_000_000).not_above(top));
    assert!(rt; !top.not_above(Sum::nothing()));
}

#[test]
fn the_worst_is_the_larger(rt: HostRuntime) {
    assert!(rt; Worst::priced(3).join(Worst::priced(9)) == Worst::priced(9));
    assert!(rt; Worst::priced(9).join(Worst::priced(3)) == Worst::priced(9));
    assert!(rt;
        Worst::nothing().join(Worst::priced(4_294_967_295))
            == Worst {
                price: 4_294_967_295,
            }
    );
    assert!(rt; Worst::priced(3).not_above(Worst::priced(3)));
    assert!(rt; !Worst::priced(4).not_above(Worst::priced(3)));
}

#[test]
fn pairs_compare_sums_first(rt: HostRuntime) {
    assert!(rt; pair(1, 9).not_above(pair(2, 0)));
    assert!(rt; !pair(2, 0).not_above(pair(1, 9)));
    assert!(rt; pair(2, 1).not_above(pair(2, 1)));
    assert!(rt; !pair(2, 2).not_above(pair(2, 1)));
    assert!(rt; pair(TOP, 4_294_967_295).not_above(SumWorst::Top));
    assert!(rt; !SumWorst::Top.not_above(pair(TOP, 4_294_967_295)));
    assert!(rt; SumWorst::Top.not_above(SumWorst::Top));
}

#[test]
fn pairs_join_to_pairs_or_top(rt: HostRuntime) {
    assert!(rt; SumWorst::priced(100).join(SumWorst::priced(173)) == pair(273, 173));
    assert!(rt; SumWorst::nothing().join(pair(7, 3)) == pair(7, 3));
    assert!(rt; pair(TOP - 7, 1).join(pair(7, 2)) == pair(TOP, 2));
    assert!(rt; pair(TOP - 7, 1).join(pair(8, 2)) == SumWorst::Top);
    assert!(rt; SumWorst::Top.join(SumWorst::nothing()) == SumWorst::Top);
    assert!(rt; SumWorst::nothing().join(SumWorst::Top) == SumWorst::Top);
}

#[test]
fn weights_are_written_for_people(rt: HostRuntime) -> Result<(), Fail> {
    let heap: Global = rt.alloc();
    assert!(rt; format!(in heap; "{}", Worst::priced(141))?.as_str() == "weight 141");
    assert!(rt;
        format!(in heap; "{}", Sum { total: TOP })?.as_str() == "weight 18446744073709551615"
    );
    assert!(rt; format!(in heap; "{}", pair(273, 173))?.as_str() == "weight 273 173");
    assert!(rt; format!(in heap; "{}", SumWorst::Top)?.as_str() == "weight top");
    Ok(())
}
