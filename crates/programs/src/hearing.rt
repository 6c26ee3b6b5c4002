// An answer in a line of the house's, as the verifier reads it.
// A line that holds no answer that fits is not believed.
ghost use Rattle.std.specs.Prelude.{◌≡◌, ℕ, ◌<◌, true, List, [], ◌∷◌, length, IfOk, MatchResult};
ghost use Rattle.arithmetic.specs.Numbers.{modulo};
ghost use Rattle.circuits.specs.Words.{modulus};
ghost use Rattle.verdicts.specs.Machine.{fits};
ghost use Rattle.verifier.specs.Answers.{answer_seen};
ghost use Rattle.verifier.specs.Meaning.{stand_of};
ghost use Rattle.programs.specs.Judge.{Said, verdict, heard};
ghost use Rattle.texts.specs.Texts.{numbers_of};

use texts::whole::read_into;
use verdicts::verdict::Verdict;
use verifier::answer::Answer;
use verifier::verifier::Verifier;

// one more than the longest answer has, so that a longer one is seen to be too long
const MOST_NUMBERS: usize = 5;

pub fn hear(verifier: &Verifier, line: &[u8]) -> Result<Answer, Verdict>
    requires { 0 < length (stand_of verifier.now).layers }
    ensures talk { MatchResult result (λ a. ((go : List ℕ → List Said) → heard (stand_of verifier.now) (numbers_of line.now) go ≡ go (answer_seen a))) (λ v. ((go : List ℕ → List Said) → heard (stand_of verifier.now) (numbers_of line.now) go ≡ verdict v ∷ [])) }
    ensures fits { IfOk result (λ a. fits (modulo modulus) (stand_of verifier.now) (answer_seen a) ≡ true) }
{
    let mut room = [0u32; MOST_NUMBERS];
    match read_into(line, &mut room) {
        Ok(count) => verifier.read(&room[0..count]),
        Err(_) => Err(verifier.doubt()),
    }
}
