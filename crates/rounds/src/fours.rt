// Functions of one variable by their values at 0, 1, 2 and 3: sums, products and multiples, value by value.
// Four sums that belong together go as one array, so that a loop has one thing to keep.
ghost use Rattle.std.specs.Prelude.{ℕ, ◌<◌, T, slice_index};
ghost use Rattle.arithmetic.specs.Numbers.{modulo, all_reduced};
ghost use Rattle.rounds.specs.Fours.{AtEach, FourOf};

use arithmetic::modular::Modular;

// Two functions put together by `f`, value by value.
fn zip_with<F: Fn(u32, u32) -> u32>(a: [u32; 4], b: [u32; 4], f: F) -> [u32; 4]
    requires { AtEach (λ i. F.pre f (slice_index a i) (slice_index b i)) }
    ensures { AtEach (λ i. F.post f (slice_index a i) (slice_index b i) (slice_index result i)) }
{
    [f(a[0], b[0]), f(a[1], b[1]), f(a[2], b[2]), f(a[3], b[3])]
}

pub fn add_each<M: Modular>(a: [u32; 4], b: [u32; 4]) -> [u32; 4]
    requires a { T (all_reduced (modulo M.modulus) a) }
    requires b { T (all_reduced (modulo M.modulus) b) }
    ensures values { (f h : ℕ → ℕ) → FourOf M.modulus f a → FourOf M.modulus h b → FourOf M.modulus (λ t. (modulo M.modulus).add (f t) (h t)) result }
    ensures below { T (all_reduced (modulo M.modulus) result) }
{
    zip_with(a, b, |x, y| M::add(x, y))
}

pub fn mul_each<M: Modular>(a: [u32; 4], b: [u32; 4]) -> [u32; 4]
    requires a { T (all_reduced (modulo M.modulus) a) }
    requires b { T (all_reduced (modulo M.modulus) b) }
    ensures values { (f h : ℕ → ℕ) → FourOf M.modulus f a → FourOf M.modulus h b → FourOf M.modulus (λ t. (modulo M.modulus).mul (f t) (h t)) result }
    ensures below { T (all_reduced (modulo M.modulus) result) }
{
    zip_with(a, b, |x, y| M::mul(x, y))
}

pub fn scale_each<M: Modular>(factor: u32, a: [u32; 4]) -> [u32; 4]
    requires factor { factor < M.modulus }
    requires a { T (all_reduced (modulo M.modulus) a) }
    ensures values { (f : ℕ → ℕ) → FourOf M.modulus f a → FourOf M.modulus (λ t. (modulo M.modulus).mul factor (f t)) result }
    ensures below { T (all_reduced (modulo M.modulus) result) }
{
    mul_each::<M>([factor; 4], a)
}
