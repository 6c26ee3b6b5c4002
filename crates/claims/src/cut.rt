// A part of some numbers, in an array of its own that has room for any point.
// Beyond the part the array holds zeros.
ghost use Rattle.std.specs.Prelude.{◌≡◌, ◌+◌, ◌-◌, ◌≤◌, true, length, take, drop, replicate};
ghost use Rattle.arithmetic.specs.Numbers.{modulo, all_reduced};
ghost use Rattle.circuits.specs.Words.{modulus};

// a point has at most so many coordinates
pub const MOST_COORDINATES: usize = 16;

// a layer's sum has at most so many variables
pub const MOST_VARIABLES: usize = 32;

pub fn cut(numbers: &[u32], from: usize, len: usize) -> [u32; MOST_COORDINATES]
    requires within { (from + len ≤ length numbers.now) × (len ≤ 16) }
    requires reduced { all_reduced (modulo modulus) numbers.now ≡ true }
    ensures part { take len result ≡ take len (drop from numbers.now) }
    ensures zeros { drop len result ≡ replicate (16 - len) 0 }
    ensures reduced { all_reduced (modulo modulus) result ≡ true }
{
    let mut part = [0; MOST_COORDINATES];
    part[0..len].copy_from_slice(&numbers[from..from + len]);
    part
}
