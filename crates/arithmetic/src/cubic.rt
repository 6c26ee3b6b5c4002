// A cubic given by its values at 0, 1, 2 and 3, and looked at anywhere.
// By Newton's differences, the innermost first.
ghost use Rattle.std.specs.Prelude.{◌≡◌, ◌+◌, ◌*◌, ◌%◌, ◌<◌, ◌≤◌, T};
ghost use Rattle.arithmetic.specs.Numbers.{modulo, inverse_modulo, all_reduced};
ghost use Rattle.arithmetic.specs.Cubic.{interpolate};

use crate::modular::Modular;

// One step of Newton's form: y + (x - i) / (i + 1) rest.
fn newton_step<M: Modular>(y: u32, i: u32, x: u32, rest: u32) -> u32
    requires given { (y < M.modulus) × (x < M.modulus) }
    requires rest_below { rest < M.modulus }
    requires i_small { i ≤ 2 }
    ensures value { result ≡ (y + ((((modulo M.modulus).sub x i) * inverse_modulo M.modulus (i + 1)) % M.modulus * rest) % M.modulus) % M.modulus }
    ensures below { result < M.modulus }
{
    let n = i as usize + 1;
    M::add(y, M::mul(M::mul(M::sub(x, i), M::inverse(n)), rest))
}

// The value at x of the cubic through the four values.
pub fn cubic_at<M: Modular>(values: [u32; 4], x: u32) -> u32
    requires reduced { T (all_reduced (modulo M.modulus) values) }
    requires x_below { x < M.modulus }
    ensures value { result ≡ interpolate (modulo M.modulus) values x }
    ensures below { result < M.modulus }
{
    let [y0, y1, y2, y3] = values;
    let first = M::sub(y1, y0);
    let after_first = M::sub(y2, y1);
    let last = M::sub(y3, y2);
    let second = M::sub(after_first, first);
    let after_second = M::sub(last, after_first);
    let third = M::sub(after_second, second);
    let inner = newton_step::<M>(second, 2, x, third);
    let middle = newton_step::<M>(first, 1, x, inner);
    newton_step::<M>(y0, 0, x, middle)
}
