// Reading an answer where the verifier stands, before any coin falls for it.
// An answer that does not fit gives the place where it does not.
ghost use Rattle.std.specs.Prelude.{◌≡◌, ◌<◌, ◌≤◌, true, false, length, MatchOption, MatchResult};
ghost use Rattle.argument.specs.Sumcheck.{well_formed};
ghost use Rattle.verdicts.specs.Machine.{variables_of, fits_variable, fits_values, fits};
ghost use Rattle.verdicts.specs.Machine.{doubt as doubted};
ghost use Rattle.claims.specs.Meaning.{numbers as field};
ghost use Rattle.claims.specs.Messages.{numbers_of};
ghost use Rattle.verifier.specs.Answers.{answer_seen};
ghost use Rattle.verifier.specs.Meaning.{stand_of};

use super::Verifier;
use crate::answer::Answer;
use arithmetic::mersenne::Mersenne31;
use arithmetic::modular::Modular;
use circuits::check_reduced;
use claims::message::Message;
use verdicts::verdict::{Place, Verdict};

// As many numbers as are due, all of them reduced, or none.
fn exactly<const N: usize>(said: &[u32]) -> Option<[u32; N]>
    ensures { MatchOption result (well_formed field N said.now ≡ false) (λ v. (v ≡ said.now) × (well_formed field N said.now ≡ true)) }
{
    let numbers = said.as_array()?;
    check_reduced::<Mersenne31>(numbers).ok()?;
    Some(*numbers)
}

impl<'a> Verifier<'a> {
    // Not believed, where it stands.
    pub fn doubt(&self) -> Verdict
        ensures { result ≡ doubted (stand_of self.now) }
    {
        if self.variable_due() {
            Verdict::Stopped(self.layer, Place::Variable(self.drawn.len()))
        } else {
            Verdict::Stopped(self.layer, Place::Values)
        }
    }

    // The values at 0 and 1 have to add up to the total. It is no plainer to share this with `read_values`, over the test:
    // the two tests need different facts of the verifier.
    fn read_variable(&self, said: &[u32]) -> Option<Message>
        ensures { MatchOption result (fits_variable field (stand_of self.now) said.now ≡ false) (λ m. (numbers_of m ≡ said.now) × (fits_variable field (stand_of self.now) said.now ≡ true)) }
    {
        let values = exactly(said)?;
        if Mersenne31::add(values[0], values[1]) == self.total {
            Some(Message::Round(values))
        } else {
            None
        }
    }

    // The layer's expression with the two values has to be the total.
    fn read_values(&self, said: &[u32]) -> Option<Message>
        requires some { 0 < length (stand_of self.now).layers }
        requires done { variables_of (stand_of self.now) ≤ length (stand_of self.now).point }
        ensures { MatchOption result (fits_values field (stand_of self.now) said.now ≡ false) (λ m. (numbers_of m ≡ said.now) × (fits_values field (stand_of self.now) said.now ≡ true)) }
    {
        let values = exactly(said)?;
        if self.expected(values[0], values[1]) == self.total {
            Some(Message::Values(values))
        } else {
            None
        }
    }

    // The message that was said, if it fits what is due.
    fn fitting(&self, said: &[u32]) -> Option<Message>
        requires { 0 < length (stand_of self.now).layers }
        ensures { MatchOption result (fits field (stand_of self.now) said.now ≡ false) (λ m. (numbers_of m ≡ said.now) × (fits field (stand_of self.now) said.now ≡ true)) }
    {
        if self.variable_due() {
            self.read_variable(said)
        } else {
            self.read_values(said)
        }
    }

    // The answer that was said, if it fits; else where it does not.
    pub fn read(&self, said: &[u32]) -> Result<Answer, Verdict>
        requires { 0 < length (stand_of self.now).layers }
        ensures { MatchResult result (λ a. (answer_seen a ≡ said.now) × (fits field (stand_of self.now) said.now ≡ true)) (λ v. (v ≡ doubted (stand_of self.now)) × (fits field (stand_of self.now) said.now ≡ false)) }
    {
        match self.fitting(said) {
            Some(message) => Ok(Answer::new(message)),
            None => Err(self.doubt()),
        }
    }
}
