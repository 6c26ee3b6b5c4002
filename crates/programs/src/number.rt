// A text that has to be just one number: how many coins `dice` is asked for, or a line with a coin, as `house` hears it.
// Any other line, such as a verdict, is a text of no known form.
ghost use Rattle.std.specs.Prelude.{◌≡◌};
ghost use Rattle.programs.specs.House.{coin_heard};
ghost use Rattle.programs.specs.OneNumber.{one_number};
ghost use Rattle.texts.specs.Texts.{numbers_of};

use arithmetic::mersenne::Mersenne31;
use circuits::check_reduced;
use refusals::Refusal;
use texts::whole::read_into;

pub fn one_number(text: &[u8]) -> Result<u32, Refusal>
    ensures { result ≡ one_number (numbers_of text.now) }
{
    let mut room = [0u32; 1];
    match read_into(text, &mut room) {
        Ok(1) => Ok(room[0]),
        _ => Err(Refusal::UnknownForm),
    }
}

// The coin in a line.
#[tactic(auto, unfolding(arithmetic::specs::Numbers::all_reduced))]
pub fn coin_heard(line: &[u8]) -> Result<u32, Refusal>
    ensures { result ≡ coin_heard (numbers_of line.now) }
{
    let coin = one_number(line)?;
    check_reduced::<Mersenne31>(&[coin])?;
    Ok(coin)
}
