// The parts of a whole point: the coins of a layer whose variables all have theirs.
// They are lent as they stand, the copies' coins first, then those of x and of y.
ghost use Rattle.std.specs.Prelude.{◌≡◌, ◌<◌, ◌≤◌, ◌+◌, true, length};
ghost use Rattle.arithmetic.specs.Numbers.{all_reduced};
ghost use Rattle.verdicts.specs.Machine.{variables_of, size_under, point_c, point_x, point_y};
ghost use Rattle.claims.specs.Meaning.{numbers as field};
ghost use Rattle.verifier.specs.Meaning.{stand_of};

use super::Verifier;

#[derive(Clone, Copy)]
pub struct Parts<'a> {
    pub copies: &'a [u32],
    pub x: &'a [u32],
    pub y: &'a [u32],
}

impl<'a> Verifier<'a> {
    pub(super) fn parts(&self) -> Parts<'_>
        requires some { 0 < length (stand_of self.now).layers }
        requires done { variables_of (stand_of self.now) ≤ length (stand_of self.now).point }
        ensures copies { (result.copies.now ≡ point_c (stand_of self.now)) × (length result.copies.now ≡ (stand_of self.now).copies) × (all_reduced field result.copies.now ≡ true) }
        ensures x { (result.x.now ≡ point_x (stand_of self.now)) × (length result.x.now ≡ size_under (stand_of self.now)) × (all_reduced field result.x.now ≡ true) }
        ensures y { (result.y.now ≡ point_y (stand_of self.now)) × (length result.y.now ≡ size_under (stand_of self.now)) × (all_reduced field result.y.now ≡ true) }
        ensures limit { length result.copies.now + length result.x.now ≤ 16 }
    {
        let copies = self.layers.copies() as usize;
        let (copies, below) = self.drawn.as_slice().split_at(copies);
        let (x, y) = below.split_at(self.size_below());
        Parts { copies, x, y }
    }
}
