// The shares of a claim that the prover holds, seen by the sums: their factors, and just the coordinates of their points.
// They are the claims' own views, for a size as a layer gives it.
ghost use Rattle.std.specs.Prelude.{◌≡◌, ◌≤◌};
ghost use Rattle.circuits.specs.Words.{modulus};
ghost use Rattle.claims.specs.Meaning.{share_meant, others};
ghost use Rattle.claims.specs.Shares.{ShareFits, SecondFits, share_seen, second_seen};

use claims::claim::{Share, views};
use claims::share::ShareView;

pub fn view_share<'a>(share: &'a Share, size: u32) -> ShareView<'a>
    requires { size ≤ 16 }
    ensures seen { share_seen result ≡ share_meant size share.now }
    ensures fits { ShareFits modulus size result }
{
    share.view(size as usize)
}

pub fn view_second<'a>(second: &'a Option<Share>, size: u32) -> Option<ShareView<'a>>
    requires { size ≤ 16 }
    ensures seen { second_seen result ≡ others size second.now }
    ensures fits { SecondFits modulus size result }
{
    views::view_second(second, size as usize)
}
