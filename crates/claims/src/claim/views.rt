// A claim's shares as the sums see them, cut to the coordinates that a layer's gates have.
// What lies beyond a point's coordinates is left out here.
ghost use Rattle.std.specs.Prelude.{◌≡◌, ◌≤◌};
ghost use Rattle.circuits.specs.Words.{modulus};
ghost use Rattle.claims.specs.Meaning.{share_meant, others, shares_meant};
ghost use Rattle.claims.specs.Shares.{share_seen, second_seen, shares_seen, ShareFits, SecondFits, SharesFit};

use super::{Share, Shares};
use crate::share::{ShareView, SharesView};

impl Share {
    pub fn view(&self, size: usize) -> ShareView<'_>
        requires { size ≤ 16 }
        ensures meant { share_seen result ≡ share_meant size self.now }
        ensures fits { ShareFits modulus size result }
    {
        ShareView {
            factor: self.factor,
            point: &self.point[0..size],
        }
    }
}

pub fn view_second(second: &Option<Share>, size: usize) -> Option<ShareView<'_>>
    requires { size ≤ 16 }
    ensures meant { second_seen result ≡ others size second.now }
    ensures fits { SecondFits modulus size result }
{
    second.as_ref().map(|share| share.view(size))
}

impl Shares {
    pub fn view(&self, size: usize) -> SharesView<'_>
        requires { size ≤ 16 }
        ensures meant { shares_seen result ≡ shares_meant size self.now }
        ensures fits { SharesFit modulus size result }
    {
        SharesView {
            first: self.first.view(size),
            second: view_second(&self.second, size),
        }
    }
}
