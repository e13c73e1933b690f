// Triangles and folds of a loop.
use crate::shapes::{fold, triangle};

#[test]
fn triangles_ascend_below_n(rt: HostRuntime) {
    assert!(rt; triangle(0, 1, 2).is_of_loop(3));
    assert!(rt; triangle(61, 62, 63).is_of_loop(64));
    assert!(rt; !triangle(0, 1, 3).is_of_loop(3));
    assert!(rt; !triangle(0, 2, 1).is_of_loop(3));
    assert!(rt; !triangle(1, 1, 2).is_of_loop(3));
    assert!(rt; !triangle(0, 2, 2).is_of_loop(3));
}

#[test]
fn a_fold_has_its_outer_corner_outside(rt: HostRuntime) {
    assert!(rt; fold(1, 2, 3, 0).is_of_loop(4));
    assert!(rt; fold(0, 1, 2, 3).is_of_loop(4));
    assert!(rt; !fold(0, 1, 2, 3).is_of_loop(3));
    assert!(rt; !fold(0, 1, 3, 2).is_of_loop(4));
    assert!(rt; !fold(1, 2, 3, 1).is_of_loop(4));
    assert!(rt; !fold(0, 1, 2, 2).is_of_loop(4));
    assert!(rt; !fold(2, 1, 3, 0).is_of_loop(4));
}

#[test]
fn corners_of_triangles_and_folds(rt: HostRuntime) {
    assert!(rt; triangle(1, 2, 5).has(1) && triangle(1, 2, 5).has(2) && triangle(1, 2, 5).has(5));
    assert!(rt; !triangle(1, 2, 5).has(3));
    assert!(rt; fold(1, 2, 5, 0).has(0) && fold(1, 2, 5, 0).has(2));
    assert!(rt; !fold(1, 2, 5, 0).has(4));
}
