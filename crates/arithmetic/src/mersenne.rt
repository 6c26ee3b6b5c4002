// The numbers modulo 2^31 - 1: products in 64 bits, brought back by a shift and a sum.
// 2^31 is 1 modulo p, so the bits from 31 up count as much as those below.
ghost use Rattle.std.specs.Prelude.{◌≡◌, ◌+◌, ◌*◌, ◌%◌, ◌<◌};
ghost use Rattle.std.proofs.Common.{rules};

use crate::modular::Modular;

pub struct Mersenne31;

const MODULUS: u32 = 2147483647;

// The inverses of 1, 2 and 3; nothing stands at 0.
const INVERSES: [u32; 4] = [0, 1, 1073741824, 1431655765];

// Brings a word below twice the modulus into the range.
fn subtract_once(a: u32) -> u32
    requires { a < 2 * 2147483647 }
    ensures { result ≡ a % 2147483647 }
{
    if a >= MODULUS { a - MODULUS } else { a }
}

impl Modular for Mersenne31 {
    ghost modulus = { 2147483647 };

    ghost above = { Prim.search rules };

    fn is_reduced(a: u32) -> bool {
        a < MODULUS
    }

    fn add(a: u32, b: u32) -> u32 {
        subtract_once(a + b)
    }

    fn sub(a: u32, b: u32) -> u32 {
        subtract_once(a + (MODULUS - b))
    }

    fn mul(a: u32, b: u32) -> u32 {
        let product = a as u64 * b as u64;
        let low = (product & 0x7fff_ffff) as u32;
        let high = (product >> 31) as u32;
        subtract_once(low + high)
    }

    fn inverse(n: usize) -> u32 {
        INVERSES[n]
    }
}
