// The next word of DICE, as the coin that is due, and where nothing may be left.
// specs/Judge.antt has both rules, on all words of DICE.
ghost use Rattle.std.specs.Prelude.{◌≡◌, ℕ, List, [], ◌∷◌, Ok, Some, Option, MatchResult};
ghost use Rattle.refusals.specs.Refusals.{number_of};
ghost use Rattle.refusals.specs.declared.Refusal.TheVariants.{UnknownForm};
ghost use Rattle.verdicts.specs.declared.verdict.Verdict.TheVariants.{Believed};
ghost use Rattle.programs.specs.Drawing.{words_from};
ghost use Rattle.programs.specs.Judge.{Said, verdict, refusal, drawn, closed};

use refusals::Refusal;

// A word that is no number.
#[derive(Clone, Copy, PartialEq, Eq, Debug, Drop)]
pub struct NoNumber;

impl From<NoNumber> for Refusal {
    ghost from_gives = { λ _ r. r ≡ UnknownForm };

    fn from(_: NoNumber) -> Refusal {
        Refusal::UnknownForm
    }
}

// A word of DICE: its number, or none where there is no word.
pub type Word = Result<Option<u32>, NoNumber>;

// The number where a coin is due: 2 where none is left, 5 where the word is no number. Whether the number is below the
// modulus is for the verifier to say.
pub fn due(word: Word) -> Result<u32, Refusal>
    ensures { MatchResult result (λ n. word ≡ Ok (Some n)) (λ e. ((others : List (Option ℕ)) (go : ℕ → List (Option ℕ) → List Said) → drawn (words_from word others) go ≡ refusal (number_of e) ∷ [])) }
{
    word?.ok_or(Refusal::WrongCount)
}

// That nothing is left: 2 where a number is, 5 where a word is that is none.
pub fn nothing_left(word: Word) -> Result<(), Refusal>
    ensures { MatchResult result (λ _. ((others : List (Option ℕ)) → closed (words_from word others) ≡ verdict Believed)) (λ e. ((others : List (Option ℕ)) → closed (words_from word others) ≡ refusal (number_of e))) }
{
    match word? {
        Some(_) => Err(Refusal::WrongCount),
        None => Ok(()),
    }
}
