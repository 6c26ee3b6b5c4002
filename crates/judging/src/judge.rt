// The call that judges a whole transcript: 0 for believed, or the first number of 1 to 4 that applies.
// It drives the same verifier that goes step by step where answers and coins come one by one.
ghost use Rattle.std.specs.Prelude.{◌≡◌, MatchResult};
ghost use Rattle.refusals.specs.Refusals.{answer_of, number_of};
ghost use Rattle.argument.specs.Transcript.{judged};
ghost use Rattle.verdicts.specs.Soundness.{JudgesSoundly, JudgesRowsSoundly, JudgesProversSoundly};
ghost use Rattle.judging.specs.Checks.{checked, judged_so, verdict_so};

use crate::call::Transcript;
use crate::transcript::hear_all;
use claims::opening::first_coins;
use refusals::{Refusal, answer};
use verdicts::verdict::Verdict;
use verifier::verifier::Verifier;

pub trait Judge {
    fn judge(
        circuit: &[u32],
        inputs: &[u32],
        claimed: &[u32],
        messages: &[u32],
        coins: &[u32],
    ) -> u32
        ensures answer { result ≡ judged circuit.now inputs.now claimed.now messages.now coins.now }
        ensures sound { JudgesSoundly circuit.now inputs.now claimed.now }
        ensures sound_in_rows { JudgesRowsSoundly circuit.now inputs.now claimed.now }
        ensures sound_for_provers { JudgesProversSoundly circuit.now inputs.now claimed.now };
}

impl<'a> Transcript<'a> {
    // The verdict itself, with the place where it stopped believing, or why the words are refused.
    pub fn examine(self) -> Result<Verdict, Refusal>
        ensures { MatchResult result (λ v. checked self.entry × (v ≡ verdict_so self.entry)) (λ e. number_of e ≡ judged_so self.entry) }
    {
        let view = self.check()?;
        let (first, later) = self.coins.split_at(first_coins(view));
        let mut verifier = Verifier::new(view, self.inputs, self.claimed, first);
        Ok(hear_all(&mut verifier, self.messages, later))
    }

    fn try_judge(self) -> Result<(), Refusal>
        ensures { answer_of result ≡ judged_so self.entry }
    {
        match self.examine()? {
            Verdict::Believed => Ok(()),
            Verdict::Stopped(_, _) => Err(Refusal::NotBelieved),
        }
    }
}

// Judging by the verifier, for the numbers modulo 2^31 - 1.
pub struct VerifierJudge;

impl Judge for VerifierJudge {
    fn judge(
        circuit: &[u32],
        inputs: &[u32],
        claimed: &[u32],
        messages: &[u32],
        coins: &[u32],
    ) -> u32 {
        let transcript = Transcript {
            circuit,
            inputs,
            claimed,
            messages,
            coins,
        };
        answer(transcript.try_judge())
    }
}
