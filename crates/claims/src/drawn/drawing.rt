// Drawing coins: none at first, then one after the other.
// What lies beyond the coins that were drawn is never shown.
ghost use Rattle.std.specs.Prelude.{◌≡◌, ◌<◌, ◌≤◌, true, [], ◌∷◌, ◌++◌, length};
ghost use Rattle.arithmetic.specs.Numbers.{modulo, all_reduced};
ghost use Rattle.circuits.specs.Words.{modulus};
ghost use Rattle.claims.specs.Drawing.{coins_drawn};

use super::Drawn;
use crate::cut::MOST_VARIABLES;

impl Drawn {
    pub fn new() -> Drawn
        ensures { coins_drawn result ≡ [] }
    {
        Drawn {
            words: [0; MOST_VARIABLES],
            len: 0,
        }
    }

    pub fn len(&self) -> usize
        ensures value { result ≡ length (coins_drawn self.now) }
        ensures limit { result ≤ 32 }
    {
        self.as_slice().len()
    }

    pub fn as_slice(&self) -> &[u32]
        ensures coins { result.now ≡ coins_drawn self.now }
        ensures reduced { all_reduced (modulo modulus) result.now ≡ true }
    {
        &self.words[0..self.len]
    }

    pub fn push(&mut self, coin: u32)
        requires room { length (coins_drawn self.old) < 32 }
        requires reduced { coin < modulus }
        ensures { coins_drawn self.new ≡ coins_drawn self.old ++ coin ∷ [] }
    {
        self.words[self.len] = coin;
        self.len += 1;
    }
}
