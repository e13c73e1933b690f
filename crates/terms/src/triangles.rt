// Triangles and folds on the corners of a loop.
ghost use Rattle.std.specs.Prelude.{◌≡◌, ◌↔◌, IsTrue};
ghost use Rattle.terms.specs.Triangles.{FoldOf, Has, HasFold, TriangleOf, is_fold_of, is_triangle_of};

// Three corners of a loop by their numbers, ascending where it is a triangle of the loop.
#[derive(Clone, Copy, Debug, PartialEq, Eq)]
pub struct Triangle {
    pub low: u16,
    pub mid: u16,
    pub high: u16,
}

// Two triangles that share an edge: the inner one, and beside it the triangle on the inner one's lowest and highest
// corner and an outer corner, which lies below the one or above the other.
#[derive(Clone, Copy, Debug, PartialEq, Eq)]
pub struct Fold {
    pub inner: Triangle,
    pub outer: u16,
}

impl Triangle {
    // Whether it is a triangle of a loop of this many corners.
    pub fn is_of_loop(self, corners: u16) -> bool
        ensures value { result ≡ is_triangle_of corners self }
        ensures decides { IsTrue result ↔ (TriangleOf corners self) }
    {
        self.low < self.mid && self.mid < self.high && self.high < corners
    }

    // Whether this is one of its corners.
    pub fn has(self, corner: u16) -> bool
        ensures { IsTrue result ↔ (Has self corner) }
    {
        self.low == corner || self.mid == corner || self.high == corner
    }
}

impl Fold {
    // Whether it is a fold of a loop of this many corners.
    pub fn is_of_loop(self, corners: u16) -> bool
        ensures value { result ≡ is_fold_of corners self }
        ensures decides { IsTrue result ↔ (FoldOf corners self) }
    {
        let beyond = self.outer < self.inner.low || self.outer > self.inner.high;
        self.inner.is_of_loop(corners) && self.outer < corners && beyond
    }

    // Whether this is one of its four corners.
    pub fn has(self, corner: u16) -> bool
        ensures { IsTrue result ↔ (HasFold self corner) }
    {
        self.inner.has(corner) || self.outer == corner
    }
}
