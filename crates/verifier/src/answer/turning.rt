// From an answer to its coin: the only way to a coin is through an answer, which is then gone.
// Where no coin comes, the answer lapses.
ghost use Rattle.std.specs.Prelude.{◌≡◌, ◌<◌, ◌≤◌, MatchResult};
ghost use Rattle.circuits.specs.Words.{modulus};
ghost use Rattle.claims.specs.Messages.{numbers_of};
ghost use Rattle.verifier.specs.Answers.{answer_seen, coin_answer, coin_word};

use super::{Answer, Coin};
use arithmetic::mersenne::Mersenne31;
use arithmetic::modular::Modular;
use claims::message::Message;
use refusals::Refusal;

impl Answer {
    // Only the verifier makes an answer, of numbers that it has found to fit.
    pub(crate) fn new(message: Message) -> Answer
        ensures { answer_seen result ≡ numbers_of message }
    {
        Answer { message }
    }

    // The coin for this answer; a word that is no number ends the answer, and gives the refusal of such a word.
    pub fn coin(self, word: u32) -> Result<Coin, Refusal>
        ensures { MatchResult result (λ c. (coin_answer c ≡ answer_seen self) × (coin_word c ≡ word) × (word < modulus)) (λ e. (e ≡ Refusal.NotReduced) × (modulus ≤ word)) }
    {
        let Answer { message } = self;
        if Mersenne31::is_reduced(word) {
            Ok(Coin { message, word })
        } else {
            Err(Refusal::NotReduced)
        }
    }

    // No coin comes.
    pub fn lapse(self) {
        let Answer { message: _ } = self;
    }
}

impl Coin {
    // The answer that the coin fell for, and its number: only a step of the verifier spends a coin.
    pub(crate) fn spend(self) -> (Message, u32)
        ensures { (numbers_of result.0 ≡ coin_answer self) × (result.1 ≡ coin_word self) × (result.1 < modulus) }
    {
        let Coin { message, word } = self;
        (message, word)
    }
}
