// Coins from bytes, as `dice` prints them.
// A word that would be the modulus itself is passed over, so that each coin is as likely as any other.
ghost use Rattle.std.specs.Prelude.{◌≡◌, slice_index};
ghost use Rattle.programs.specs.Dice.{coin_of};

use arithmetic::mersenne::Mersenne31;
use arithmetic::modular::Modular;

// The coin that four bytes make, the lowest first, or none where they make the modulus.
pub fn coin_of_bytes(bytes: [u8; 4]) -> Option<u32>
    ensures { result ≡ coin_of (slice_index bytes 0) (slice_index bytes 1) (slice_index bytes 2) (slice_index bytes 3) }
{
    let coin = u32::from_le_bytes(bytes) & 0x7fff_ffff;
    Mersenne31::is_reduced(coin).then_some(coin)
}
