// What a claim's shares add up to over a table of values: the sum of factor times value.
// The copies' variables are fixed once, for all shares.
ghost use Rattle.std.specs.Prelude.{◌≡◌, ℕ, ◌+◌, ◌^◌, ◌≤◌, T, List, [], ◌++◌, length, take};
ghost use Rattle.arithmetic.specs.Numbers.{modulo, all_reduced};
ghost use Rattle.tables.specs.Multilinear.{mle};
ghost use Rattle.argument.specs.Claims.{share_sum};
ghost use Rattle.claims.specs.Shares.{SharesFit, shares_seen};

use crate::extension::extension_at;
use crate::share::SharesView;
use arithmetic::modular::Modular;
use circuits::MOST_PLACES;
use tables::halving::fix_first;

// Fixes the first variables at a point, and gives how many numbers are then left, at the start of the table.
fn fix_variables<M: Modular>(table: &mut [u32], point: &[u32]) -> usize
    requires reduced { (T (all_reduced (modulo M.modulus) table.old)) × (T (all_reduced (modulo M.modulus) point.now)) }
    ensures fits { result ≤ length table.new }
    ensures left { (z : List ℕ) → length table.old ≡ 2 ^ (length point.now + length z) → result ≡ 2 ^ length z }
    ensures values { (z : List ℕ) → length table.old ≡ 2 ^ (length point.now + length z) → mle (modulo M.modulus) (take result table.new) z ≡ mle (modulo M.modulus) table.old (point.now ++ z) }
    ensures reduced { T (all_reduced (modulo M.modulus) table.new) }
{
    let mut len = table.len();
    for r in point {
        fix_first::<M>(&mut table[0..len], *r);
        len /= 2;
    }
    len
}

// Over the values of one copy.
fn add_shares<M: Modular>(values: &[u32], shares: SharesView) -> u32
    requires length { (length values.now ≡ 2 ^ length shares.first.point.now) × (length shares.first.point.now ≤ 16) }
    requires reduced { T (all_reduced (modulo M.modulus) values.now) }
    requires shares { SharesFit M.modulus (length shares.first.point.now) shares }
    ensures { result ≡ share_sum (modulo M.modulus) values.now [] (shares_seen shares.entry) }
{
    let value = M::mul(
        shares.first.factor,
        extension_at::<M>(values, shares.first.point),
    );
    match shares.second {
        None => value,
        Some(share) => M::add(
            value,
            M::mul(share.factor, extension_at::<M>(values, share.point)),
        ),
    }
}

// In room that is just as long as the table.
fn sum_shares_in<M: Modular>(
    room: &mut [u32],
    values: &[u32],
    copy: &[u32],
    shares: SharesView,
) -> u32
    requires room { length room.old ≡ length values.now }
    requires length { (length values.now ≡ 2 ^ (length copy.now + length shares.first.point.now)) × (length shares.first.point.now ≤ 16) }
    requires reduced { (T (all_reduced (modulo M.modulus) values.now)) × (T (all_reduced (modulo M.modulus) copy.now)) }
    requires shares { SharesFit M.modulus (length shares.first.point.now) shares }
    ensures { result ≡ share_sum (modulo M.modulus) values.now copy.now (shares_seen shares.entry) }
{
    room.copy_from_slice(values);
    let left = fix_variables::<M>(room, copy);
    add_shares::<M>(&room[0..left], shares)
}

// Over the values of all copies, at the copies' point.
pub fn sum_shares<M: Modular>(values: &[u32], copy: &[u32], shares: SharesView) -> u32
    requires length { (length values.now ≡ 2 ^ (length copy.now + length shares.first.point.now)) × (length copy.now + length shares.first.point.now ≤ 16) }
    requires reduced { (T (all_reduced (modulo M.modulus) values.now)) × (T (all_reduced (modulo M.modulus) copy.now)) }
    requires shares { SharesFit M.modulus (length shares.first.point.now) shares }
    ensures { result ≡ share_sum (modulo M.modulus) values.now copy.now (shares_seen shares.entry) }
{
    let mut work = [0; MOST_PLACES];
    sum_shares_in::<M>(&mut work[0..values.len()], values, copy, shares)
}
