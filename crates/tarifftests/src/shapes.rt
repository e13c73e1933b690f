// Triangles and folds in few words.
use terms::{Fold, Triangle};

pub fn triangle(low: u16, mid: u16, high: u16) -> Triangle {
    Triangle { low, mid, high }
}

pub fn fold(low: u16, mid: u16, high: u16, outer: u16) -> Fold {
    Fold {
        inner: triangle(low, mid, high),
        outer,
    }
}
