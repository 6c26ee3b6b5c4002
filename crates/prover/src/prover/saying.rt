// What the prover answers at its stand.
// It looks at nothing but its tables, which know of no coin to come.
ghost use Rattle.std.specs.Prelude.{◌≡◌, T, [], length};
ghost use Rattle.arithmetic.specs.Numbers.{modulo, all_reduced};
ghost use Rattle.circuits.specs.Words.{modulus};
ghost use Rattle.claims.specs.Messages.{numbers_of};
ghost use Rattle.prover.specs.Provers.{Stands, StandsIn, speaks, answer_length};

use super::HonestProver;
use crate::due::Due;
use arithmetic::mersenne::Mersenne31;
use claims::message::Message;
use phases::quarters::Tables;
use phases::turns::{copy_answer, product_answer};

impl<'a> HonestProver<'a> {
    pub fn say(&self, tables: &Tables) -> Message
        requires { Stands 0 0 self.now tables.now }
        ensures answer { numbers_of result ≡ speaks self.now [] }
        ensures length { length (numbers_of result) ≡ answer_length self.now }
        ensures reduced { T (all_reduced (modulo modulus) (numbers_of result)) }
    {
        self.say_from(tables.v, tables.w, tables.h, tables.j)
    }

    // The same from four quarters that are lent to be read.
    pub(crate) fn say_from(&self, v: &[u32], w: &[u32], h: &[u32], j: &[u32]) -> Message
        requires { StandsIn 0 0 self.now v.now w.now h.now j.now }
        ensures answer { numbers_of result ≡ speaks self.now [] }
        ensures length { length (numbers_of result) ≡ answer_length self.now }
        ensures reduced { T (all_reduced (modulo modulus) (numbers_of result)) }
    {
        match self.due() {
            Due::Copies(left) => {
                Message::Round(copy_answer::<Mersenne31>(self.layer, left, v, w, h))
            }
            Due::Left(left) | Due::Right(left) => {
                Message::Round(product_answer::<Mersenne31>(left, v, h, j))
            }
            Due::Values => Message::Values([self.at_x, v[0]]),
        }
    }
}
