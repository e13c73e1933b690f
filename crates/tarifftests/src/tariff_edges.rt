// The tiny tariff: prices, changes, refusals, and the memory beyond.
use crate::shapes::{fold, triangle};
use crate::tolls::Tolls;
use tariffs::{Amendable, Call, Change, Tariff, answer_alike};
use terms::Refusal;

#[test]
fn tolls_add_up(rt: HostRuntime) {
    let mut memory = [1, 20, 300, 4000, 5];
    let tolls = Tolls::new(&mut memory);
    assert_eq!(rt; tolls.price(triangle(0, 1, 2)), Some(321));
    assert_eq!(rt; tolls.price(triangle(0, 1, 3)), Some(1021));
    assert_eq!(rt; tolls.price(triangle(0, 1, 4)), None);
    assert_eq!(rt; tolls.price(triangle(1, 0, 2)), None);
    assert_eq!(rt; tolls.fold_price(fold(0, 1, 2, 3)), Some(1000));
    assert_eq!(rt; tolls.fold_price(fold(0, 1, 3, 2)), None);
}

#[test]
fn changes_and_refusals(rt: HostRuntime) {
    let mut memory = [1, 20, 300, 400, 5];
    let mut tolls = Tolls::new(&mut memory);
    assert_eq!(rt; tolls.amend(4, 1001, 0, 0).map_err(Refusal::number), Err(7));
    assert_eq!(rt; tolls.amend(0, -1, 0, 0).map_err(Refusal::number), Err(7));
    assert_eq!(rt;
        tolls.amend(4, 1000, 0, 0).map_err(Refusal::number),
        Err(12)
    );
    assert_eq!(rt; tolls.exchange(3).map_err(Refusal::number), Err(10));
    assert_eq!(rt; tolls.amend(2, 1000, 0, 0), Ok(()));
    assert_eq!(rt; tolls.exchange(2), Ok(()));
    assert_eq!(rt; tolls.in_use(), 2);
    assert_eq!(rt; tolls.price(triangle(0, 1, 2)), Some(2042));
    assert_eq!(rt; tolls.price(triangle(0, 1, 3)), Some(842));
    assert!(rt; memory == [1, 20, 1000, 400, 5]);
}

#[test]
fn calls_tell_different_tariffs_apart(rt: HostRuntime) {
    let mut one = [1, 2, 3, 4, 5];
    let mut other = [1, 2, 3, 9, 6];
    let mut first = Tolls::new(&mut one);
    let mut second = Tolls::new(&mut other);
    let near = Call::Price(triangle(0, 1, 2));
    let far = Call::Price(triangle(0, 1, 3));
    let amend = Call::Alter(Change::Amend {
        corner: 3,
        x: 7,
        y: 0,
        z: 0,
    });
    assert!(rt; answer_alike(&mut first, &mut second, &[Call::Corners, near, Call::InUse]));
    assert!(rt; !answer_alike(&mut first, &mut second, &[far, near]));
    assert!(rt; answer_alike(&mut first, &mut second, &[amend, near, far]));
    assert!(rt; one == [1, 2, 3, 7, 5] && other == [1, 2, 3, 7, 6]);
}
