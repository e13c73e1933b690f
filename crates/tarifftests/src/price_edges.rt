// Lists of triangles under the tiny tariff, in each kind of weight.
use crate::charged::Charged;
use crate::tolls::Tolls;
use pricing::{dearest, weight_of};
use terms::Triangle;
use weights::{Sum, SumWorst, Worst};

const LOW: Triangle = Triangle {
    low: 0,
    mid: 1,
    high: 2,
};

const HIGH: Triangle = Triangle {
    low: 1,
    mid: 2,
    high: 3,
};

const NONE: Triangle = Triangle {
    low: 1,
    mid: 2,
    high: 4,
};

#[test]
fn a_list_in_three_kinds(rt: HostRuntime) {
    let mut memory = [1, 20, 300, 400];
    let tolls = Tolls::new(&mut memory);
    assert!(rt; weight_of(&tolls, &[LOW, HIGH]) == Some(Sum { total: 1041 }));
    assert!(rt; weight_of(&tolls, &[HIGH, LOW]) == Some(Worst { price: 720 }));
    assert!(rt;
        weight_of(&tolls, &[LOW, HIGH, LOW])
            == Some(SumWorst::Pair {
                sum: 1362,
                worst: 720,
            })
    );
    assert!(rt; weight_of(&tolls, &[]) == Some(Sum { total: 0 }));
    assert!(rt; weight_of::<Sum, _>(&tolls, &[LOW, NONE, HIGH]) == None);
}

#[test]
fn the_dearest_of_a_list(rt: HostRuntime) {
    let mut memory = [1, 20, 300, 400];
    let tolls = Tolls::new(&mut memory);
    assert_eq!(rt; dearest::<Worst, _>(&tolls, &[NONE]), None);
    assert_eq!(rt;
        dearest(&tolls, &[NONE, HIGH, LOW]),
        Some((HIGH, Worst { price: 720 }))
    );
}

#[test]
fn the_first_of_equally_dear_triangles(rt: HostRuntime) {
    let mut memory = [5, 5, 5, 5];
    let tolls = Tolls::new(&mut memory);
    assert_eq!(rt;
        dearest(&tolls, &[LOW, HIGH]),
        Some((LOW, Worst { price: 15 }))
    );
    assert_eq!(rt;
        dearest(&tolls, &[NONE, HIGH, LOW, HIGH]),
        Some((HIGH, SumWorst::Pair { sum: 15, worst: 15 }))
    );
}

#[test]
fn a_kind_whose_type_has_no_order(rt: HostRuntime) {
    let mut memory = [0, 0, 0, 400];
    let tolls = Tolls::new(&mut memory);
    assert_eq!(rt;
        weight_of(&tolls, &[LOW, LOW]),
        Some(Charged { any: false })
    );
    assert_eq!(rt;
        weight_of(&tolls, &[LOW, HIGH]),
        Some(Charged { any: true })
    );
    assert_eq!(rt; weight_of::<Charged, _>(&tolls, &[LOW, NONE]), None);
    assert_eq!(rt;
        dearest(&tolls, &[LOW, HIGH]),
        Some((HIGH, Charged { any: true }))
    );
}
