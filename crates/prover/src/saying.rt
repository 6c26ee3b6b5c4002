// What a prover answers at its stand, in four quarters that are lent to be read.
// Whoever holds them in the struct of the four asks the prover itself.
ghost use Rattle.std.specs.Prelude.{◌≡◌, T, [], length};
ghost use Rattle.arithmetic.specs.Numbers.{modulo, all_reduced};
ghost use Rattle.circuits.specs.Words.{modulus};
ghost use Rattle.claims.specs.Messages.{numbers_of};
ghost use Rattle.prover.specs.Provers.{StandsIn, speaks, answer_length};

use crate::prover::HonestProver;
use claims::message::Message;

pub fn say(prover: HonestProver, v: &[u32], w: &[u32], h: &[u32], j: &[u32]) -> Message
    requires { StandsIn 0 0 prover v.now w.now h.now j.now }
    ensures answer { numbers_of result ≡ speaks prover.entry [] }
    ensures length { length (numbers_of result) ≡ answer_length prover.entry }
    ensures reduced { T (all_reduced (modulo modulus) (numbers_of result)) }
{
    prover.say_from(v, w, h, j)
}
