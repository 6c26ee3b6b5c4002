// Numbers modulo a ghost modulus, as words below it: what tables, sums and claims are generic over.
// Each operation takes reduced words and gives a reduced word.
ghost use Rattle.std.specs.Prelude.{◌≡◌, ℕ, ◌+◌, ◌*◌, ◌%◌, ◌<◌, ◌≤◌, nat_lt};
ghost use Rattle.arithmetic.specs.Numbers.{modulo, inverse_modulo};

pub trait Modular {
    // The number modulo which everything is meant.
    ghost modulus: { ℕ };

    // Whether a word is one of the numbers.
    fn is_reduced(a: u32) -> bool
        ensures { result ≡ nat_lt a modulus };

    fn add(a: u32, b: u32) -> u32
        requires { (a < modulus) × (b < modulus) }
        ensures value { result ≡ (a + b) % modulus }
        ensures below { result < modulus };

    fn sub(a: u32, b: u32) -> u32
        requires { (a < modulus) × (b < modulus) }
        ensures value { result ≡ (modulo modulus).sub a b }
        ensures below { result < modulus };

    fn mul(a: u32, b: u32) -> u32
        requires { (a < modulus) × (b < modulus) }
        ensures value { result ≡ (a * b) % modulus }
        ensures below { result < modulus };

    // The inverse of 1, 2 or 3.
    fn inverse(n: usize) -> u32
        requires { (1 ≤ n) × (n ≤ 3) }
        ensures value { result ≡ inverse_modulo modulus n }
        ensures below { result < modulus };

    ghost above: { 3 < modulus };
}
