// The value of a table's multilinear extension, worked out in a local copy of the table.
// The table itself stays as it is, since it is only lent.
ghost use Rattle.std.specs.Prelude.{◌≡◌, ◌^◌, ◌<◌, ◌≤◌, T, length};
ghost use Rattle.arithmetic.specs.Numbers.{modulo, all_reduced};
ghost use Rattle.tables.specs.Multilinear.{mle};

use arithmetic::modular::Modular;
use circuits::MOST_PLACES;
use tables::halving::mle_at;

// In room that is just as long as the table.
fn extension_in<M: Modular>(room: &mut [u32], values: &[u32], point: &[u32]) -> u32
    requires room { length room.old ≡ length values.now }
    requires length { length values.now ≡ 2 ^ length point.now }
    requires values_reduced { T (all_reduced (modulo M.modulus) values.now) }
    requires point_reduced { T (all_reduced (modulo M.modulus) point.now) }
    ensures value { result ≡ mle (modulo M.modulus) values.now point.now }
    ensures below { result < M.modulus }
{
    room.copy_from_slice(values);
    mle_at::<M>(room, point)
}

pub fn extension_at<M: Modular>(values: &[u32], point: &[u32]) -> u32
    requires length { (length values.now ≡ 2 ^ length point.now) × (length point.now ≤ 16) }
    requires values_reduced { T (all_reduced (modulo M.modulus) values.now) }
    requires point_reduced { T (all_reduced (modulo M.modulus) point.now) }
    ensures value { result ≡ mle (modulo M.modulus) values.now point.now }
    ensures below { result < M.modulus }
{
    let mut work = [0; MOST_PLACES];
    extension_in::<M>(&mut work[0..values.len()], values, point)
}
