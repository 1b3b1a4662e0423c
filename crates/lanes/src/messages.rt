// Messages where they are lent.
ghost use Rattle.std.specs.Prelude.{◌+◌, ◌^◌, ◌<◌};
ghost use Rattle.lanes.specs.Lanes.{Lying};

use crate::Batch;

// The messages of a batch in the two slices that its rows lie in, each below the limit of FIPS 180-4, section 1.
#[derive(Clone, Copy)]
pub struct Messages<'a> {
    pub heads: &'a [u8],
    pub bodies: &'a [u8],
    pub batch: Batch,
    pub ghost lying: { Lying heads.now bodies.now batch },
    pub ghost short: { batch.heads.size + batch.bodies.size < 2 ^ 61 },
}
