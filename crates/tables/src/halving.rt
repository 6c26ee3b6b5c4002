// A table's first variable fixed at a number, in the table's own first half.
// Done for each coordinate of a point, this leaves the value of the multilinear extension there.
ghost use Rattle.std.specs.Prelude.{◌≡◌, ◌/◌, ◌^◌, ◌<◌, T, ◌++◌, length, drop};
ghost use Rattle.arithmetic.specs.Numbers.{modulo, all_reduced};
ghost use Rattle.tables.specs.InPlace.{on_line, halved_all};
ghost use Rattle.tables.specs.Multilinear.{fix_first, mle};

use arithmetic::modular::Modular;

// (1 - r) a + r b as a + r (b - a), which has one multiplication in place of two.
fn at_line<M: Modular>(a: u32, b: u32, r: u32) -> u32
    requires a_lt_modulus { (a < M.modulus) × (b < M.modulus) }
    requires r_lt_modulus { r < M.modulus }
    ensures value { result ≡ on_line (modulo M.modulus) r a b }
    ensures below { result < M.modulus }
{
    M::add(a, M::mul(r, M::sub(b, a)))
}

// Fixes the first variable at r. The second half stays as it was.
pub fn fix_first<M: Modular>(table: &mut [u32], r: u32)
    requires reduced { T (all_reduced (modulo M.modulus) table.old) }
    requires r_below { r < M.modulus }
    ensures words { table.new ≡ fix_first (modulo M.modulus) r table.old ++ drop (length table.old / 2) table.old }
    ensures reduced { T (all_reduced (modulo M.modulus) table.new) }
{
    // By index: the table is halved in its own first half, and each turn reads it at two places, half of it apart.
    let half = table.len() / 2;
    for i in 0..half {
        table[i] = at_line::<M>(table[i], table[half + i], r);
    }
}

// The value at a point of the table's multilinear extension. The table is used up: `halved_all` says what it then holds.
pub fn mle_at<M: Modular>(table: &mut [u32], point: &[u32]) -> u32
    requires length { length table.old ≡ 2 ^ length point.now }
    requires reduced { T (all_reduced (modulo M.modulus) table.old) }
    requires point_reduced { T (all_reduced (modulo M.modulus) point.now) }
    ensures value { result ≡ mle (modulo M.modulus) table.old point.now }
    ensures below { result < M.modulus }
    ensures words { table.new ≡ halved_all (modulo M.modulus) table.old point.now }
    ensures reduced { T (all_reduced (modulo M.modulus) table.new) }
{
    // how much of the table is left
    let mut len = table.len();
    for r in point {
        fix_first::<M>(&mut table[..len], *r);
        len /= 2;
    }
    table[0]
}
