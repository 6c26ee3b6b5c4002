// judge CIRCUIT INPUTS OUTPUTS DICE: the verifier. It draws coins out of DICE, prints each, and reads the house's answers.
// In the end it prints `believed`, or where it stopped believing; the status is 0 only where it believes.
#![tactic(auto)]

ghost use Rattle.std.specs.Prelude.{◌<◌, length};
ghost use Rattle.verifier.specs.Meaning.{stand_of};

use arithmetic::mersenne::Mersenne31;
use circuits::check_reduced;
use programs::hearing::hear;
use programs::held::{Held, MOST_FIRST_COINS};
use std::process::ExitCode;
use streams::arguments::arguments;
use streams::failure::{Failure, exit_code};
use streams::files::read_file;
use streams::lines::LinesIn;
use streams::stream::Dice;
use verdicts::verdict::Verdict;
use verifier::verifier::Verifier;

const USAGE: &str = "judge CIRCUIT INPUTS OUTPUTS DICE";

// Draws the first coins; each is printed once it is known to be one.
fn draw_first(rt: &HostRuntime, dice: &mut Dice, coins: &mut [u32]) -> Result<(), Failure> {
    for coin in coins.iter_mut() {
        let word = dice.due(rt)?;
        check_reduced::<Mersenne31>(&[word])?;
        println!(rt; "{word}")?;
        *coin = word;
    }
    Ok(())
}

// One line of the house's, and, if it is as it has to be, one coin; else where it is not.
fn turn(
    rt: &HostRuntime,
    verifier: &mut Verifier,
    dice: &mut Dice,
    line: &[u8],
) -> Result<Option<Verdict>, Failure>
    requires { 0 < length (stand_of verifier.old).layers }
{
    let answer = match hear(verifier, line) {
        Ok(answer) => answer,
        Err(verdict) => return Ok(Some(verdict)),
    };
    // an answer cannot just be let go, so no `?` here
    let word = match dice.due(rt) {
        Ok(word) => word,
        Err(failure) => {
            answer.lapse();
            return Err(failure);
        }
    };
    verifier.step(answer.coin(word)?);
    println!(rt; "{word}")?;
    Ok(None)
}

// Line by line down to the inputs, and there the claim is settled.
fn talk(
    rt: &HostRuntime,
    verifier: &mut Verifier,
    dice: &mut Dice,
    house: &mut LinesIn,
) -> Result<Verdict, Failure> {
    // A count stands for no end: a loop on input without one gets no proof, and this one is never reached.
    for _ in 0..u64::MAX {
        if verifier.at_inputs() {
            return Ok(verifier.settle());
        }
        let Some(line) = house.next(rt.alloc())? else {
            return Ok(verifier.doubt());
        };
        if let Some(verdict) = turn(rt, verifier, dice, line.as_slice())? {
            return Ok(verdict);
        }
    }
    Ok(verifier.doubt())
}

// Where it would believe, nothing may be left in DICE; where it does not, it reads on, so that the house can finish writing.
fn conclude(
    rt: &HostRuntime,
    verdict: Verdict,
    dice: &mut Dice,
    house: &mut LinesIn,
) -> Result<(), Failure> {
    if verdict == Verdict::Believed {
        dice.close(rt)?;
        println!(rt; "{verdict}")?;
        Ok(())
    } else {
        println!(rt; "{verdict}")?;
        house.drain(rt.alloc())?;
        Err(Failure::NotBelieved)
    }
}

// From the first coins on.
fn judge(rt: &HostRuntime, held: Held, dice: &mut Dice) -> Result<(), Failure> {
    let mut room = [0u32; MOST_FIRST_COINS];
    let coins = &mut room[0..held.first_coins()];
    draw_first(rt, dice, coins)?;
    check_reduced::<Mersenne31>(coins)?;
    let mut verifier = held.open(coins);
    let mut house = LinesIn::new(rt)?;
    let verdict = talk(rt, &mut verifier, dice, &mut house)?;
    conclude(rt, verdict, dice, &mut house)
}

fn work(rt: &HostRuntime) -> Result<(), Failure> {
    let [circuit, inputs, claimed, dice] = arguments::<4>(rt)?;
    let circuit = read_file(rt, circuit.as_str())?;
    let inputs = read_file(rt, inputs.as_str())?;
    let claimed = read_file(rt, claimed.as_str())?;
    let held = Held::check(circuit.as_slice(), inputs.as_slice(), claimed.as_slice())?;
    let mut dice = Dice::open(rt, dice.as_str())?;
    judge(rt, held, &mut dice)
}

fn main(rt: HostRuntime) -> ExitCode {
    exit_code(&rt, USAGE, work(&rt))
}
