// The eq polynomial: at two points, and at one point and all corners.
// The table of all corners takes one multiplication for each two of its places.
ghost use Rattle.std.specs.Prelude.{◌≡◌, ◌/◌, ◌%◌, ◌^◌, ◌<◌, ◌≤◌, T, ◌++◌, length, take, drop};
ghost use Rattle.arithmetic.specs.Numbers.{modulo, all_reduced};
ghost use Rattle.tables.specs.InPlace.{eq_factor, eq_table, scaled_eq_table, split_first};
ghost use Rattle.tables.specs.Multilinear.{eq_poly};

use arithmetic::modular::Modular;

// One variable's factor: r c + (1 - r) (1 - c).
fn eq_factor<M: Modular>(r: u32, c: u32) -> u32
    requires { (r < M.modulus) × (c < M.modulus) }
    ensures value { result ≡ eq_factor (modulo M.modulus) r c }
    ensures below { result < M.modulus }
{
    M::add(M::mul(r, c), M::mul(M::sub(1, r), M::sub(1, c)))
}

// The eq polynomial of two points.
pub fn eq_at<M: Modular>(a: &[u32], b: &[u32]) -> u32
    requires length { length a.now ≡ length b.now }
    requires a_reduced { T (all_reduced (modulo M.modulus) a.now) }
    requires b_reduced { T (all_reduced (modulo M.modulus) b.now) }
    ensures value { result ≡ eq_poly (modulo M.modulus) a.now b.now }
    ensures below { result < M.modulus }
{
    let mut product = 1;
    for (r, c) in a.iter().zip(b) {
        product = M::mul(product, eq_factor::<M>(*r, *c));
    }
    product
}

// Splits each number e of the first half into e - e r, in its place, and e r, at the same place of the second half.
fn split_first<M: Modular>(table: &mut [u32], r: u32)
    requires even { length table.old % 2 ≡ 0 }
    requires reduced { T (all_reduced (modulo M.modulus) (take (length table.old / 2) table.old)) }
    requires r_below { r < M.modulus }
    ensures { table.new ≡ split_first (modulo M.modulus) r (take (length table.old / 2) table.old) }
{
    // By `enumerate`: no contract says what a zip of two `iter_mut` leaves in its slices.
    let half = table.len() / 2;
    let (low, high) = table.split_at_mut(half);
    for (i, e) in low.iter_mut().enumerate() {
        let part = M::mul(*e, r);
        high[i] = part;
        *e = M::sub(*e, part);
    }
}

// At each place of the first 2^k, `factor` times eq of the place's bits and the point. What lies beyond stays as it was.
// The last variable comes first, since each one before it is a higher bit and splits the whole of what is there.
pub fn eq_table_scaled<M: Modular>(factor: u32, point: &[u32], out: &mut [u32])
    requires room { 2 ^ length point.now ≤ length out.old }
    requires factor_below { factor < M.modulus }
    requires point_reduced { T (all_reduced (modulo M.modulus) point.now) }
    ensures words { out.new ≡ scaled_eq_table (modulo M.modulus) factor point.now ++ drop (2 ^ length point.now) out.old }
    ensures reduced { T (all_reduced (modulo M.modulus) (scaled_eq_table (modulo M.modulus) factor point.now)) }
{
    out[0] = factor;
    // how much of the table is there
    let mut len = 1;
    for r in point.iter().rev() {
        len *= 2;
        split_first::<M>(&mut out[..len], *r);
    }
}

// At each place of the first 2^k, eq of the place's bits and the point. What lies beyond stays as it was.
pub fn eq_table<M: Modular>(point: &[u32], out: &mut [u32])
    requires room { 2 ^ length point.now ≤ length out.old }
    requires point_reduced { T (all_reduced (modulo M.modulus) point.now) }
    ensures words { out.new ≡ eq_table (modulo M.modulus) point.now ++ drop (2 ^ length point.now) out.old }
    ensures reduced { T (all_reduced (modulo M.modulus) (eq_table (modulo M.modulus) point.now)) }
{
    eq_table_scaled::<M>(1, point, out);
}
