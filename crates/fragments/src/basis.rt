// What the weights of some sources have in common for every value that is made of them.
ghost use Rattle.fragments.specs.Basis.{Ready};

use crate::is_among;

// The points of some sources, the first `size` of `points`, and for each the part of its weight that is the same for every value. The weight of
// the source at p for the value at x is the product of (x + q) / (p + q) over the other points q: of that the scale holds what p alone
// decides, the inverse of the product of p + q. A row is 16 wide, as a vector of the processor is.
#[derive(Clone, Copy)]
pub struct Basis {
    pub points: [u8; 16],
    pub scales: [u8; 16],
    pub size: usize,
    pub ghost ready: { Ready points scales size },
}

impl Basis {
    ghost use Rattle.std.specs.Prelude.{◌≡◌};
    ghost use Rattle.fragments.specs.Fragments.{among};
    ghost use Rattle.fragments.specs.Inside.{points_of};

    // Whether x is one of its points.
    pub fn has(self, x: u8) -> bool
        ensures { result ≡ among x (points_of self) }
    {
        is_among(&self.points[..self.size], x)
    }
}
