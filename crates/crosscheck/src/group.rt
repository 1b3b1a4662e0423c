// What is hashed side by side.
ghost use Rattle.fragments.specs.Fragments.{Sources};
ghost use Rattle.fragments.specs.Inside.{points_of};
ghost use Rattle.crosscheck.specs.Groups.{Hashable};

use fragments::Basis;
use terms::Slots;

// Some fragments of a set, side by side: so many, from the first on, each made from the sources of the basis in the slots of the desk.
#[derive(Clone, Copy)]
pub struct Group<'a> {
    pub desk: &'a [u8],
    pub slots: Slots,
    pub basis: Basis,
    pub first: usize,
    pub n: usize,
    pub ghost sources: { Sources desk.now slots (points_of basis) },
    pub ghost hashable: { Hashable slots first n },
}
