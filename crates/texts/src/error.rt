// Why a text gives no numbers.
// specs/Answers.antt says which refusal each case is.
ghost use Rattle.std.specs.Prelude.{◌≡◌};
ghost use Rattle.texts.specs.Answers.{refusal_of};
ghost use Rattle.std.specs.declared.alloc.AllocError.{AllocError};
ghost use Rattle.texts.specs.declared.error.TextError.TheVariants.{NoMemory};

use refusals::Refusal;
use std::alloc::{AllocError, AllocFailed};

#[derive(Clone, Copy, PartialEq, Eq, Debug)]
pub enum TextError {
    // A word that is no number.
    NoNumber,
    // More numbers than there is room for.
    TooMany,
    NoMemory(AllocError),
}

impl TextError {
    // The refusal that it is, if it is one.
    pub fn refusal(self) -> Option<Refusal>
        ensures { result ≡ refusal_of self }
    {
        match self {
            TextError::NoNumber => Some(Refusal::UnknownForm),
            TextError::TooMany => Some(Refusal::WrongCount),
            TextError::NoMemory(_) => None,
        }
    }
}

impl From<AllocError> for TextError {
    ghost from_gives = { λ e r. r ≡ NoMemory e };

    fn from(e: AllocError) -> TextError {
        TextError::NoMemory(e)
    }
}

impl<T: Drop> From<AllocFailed<T>> for TextError {
    ghost from_gives = { λ _ r. (e : AllocError) × (r ≡ NoMemory e) };

    fn from(_: AllocFailed<T>) -> TextError {
        TextError::NoMemory(AllocError)
    }
}
