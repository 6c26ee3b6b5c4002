// house CIRCUIT INPUTS: the honest prover. It reads the first coins, one a line, and then by turns prints an answer and
// reads a coin; the last coin has no answer after it.
#![tactic(auto)]

ghost use Rattle.std.specs.Prelude.{◌<◌, IfOk};
ghost use Rattle.circuits.specs.Words.{modulus};
ghost use Rattle.prover.specs.Provers.{Stands};

use arithmetic::mersenne::Mersenne31;
use circuits::check_reduced;
use claims::message::Message;
use phases::quarters::{Tables, WORK};
use programs::answering::is_last;
use programs::given::Given;
use programs::held::MOST_FIRST_COINS;
use programs::number::coin_heard;
use prover::prover::HonestProver;
use refusals::Refusal;
use std::process::ExitCode;
use streams::arguments::arguments;
use streams::failure::{Failure, exit_code};
use streams::files::read_file;
use streams::lines::LinesIn;
use texts::line::Line;

const USAGE: &str = "house CIRCUIT INPUTS";

// The coin in the next line.
fn next_coin(rt: &HostRuntime, judge: &mut LinesIn) -> Result<u32, Failure>
    ensures { IfOk result (λ coin. coin < modulus) }
{
    let line = judge.next(rt.alloc())?.ok_or(Refusal::WrongCount)?;
    Ok(coin_heard(line.as_slice())?)
}

// Not shared with the judge, which prints each: that would be no plainer.
fn hear_first(rt: &HostRuntime, judge: &mut LinesIn, coins: &mut [u32]) -> Result<(), Failure> {
    for coin in coins.iter_mut() {
        *coin = next_coin(rt, judge)?;
    }
    Ok(())
}

fn print_answer(rt: &HostRuntime, answer: Message) -> Result<(), Failure> {
    let line = Line {
        numbers: answer.as_slice(),
    };
    println!(rt; "{line}")?;
    Ok(())
}

// By turns an answer and a coin.
fn talk(
    rt: &HostRuntime,
    judge: &mut LinesIn,
    mut prover: HonestProver,
    tables: &mut Tables,
) -> Result<(), Failure>
    requires { Stands 0 0 prover tables.old }
{
    // A count stands for no end: a loop on input without one gets no proof, and this one is never reached.
    for _ in 0..u64::MAX {
        print_answer(rt, prover.say(tables))?;
        let coin = next_coin(rt, judge)?;
        if is_last(&prover) {
            break;
        }
        prover.hear(coin, tables);
    }
    Ok(())
}

// From the first coins on.
fn house(rt: &HostRuntime, given: Given) -> Result<(), Failure> {
    let mut room = [0u32; MOST_FIRST_COINS];
    let coins = &mut room[0..given.first_coins()];
    let mut work = [0u32; WORK];
    let mut tables = Tables::over(&mut work);
    let mut judge = LinesIn::new(rt)?;
    hear_first(rt, &mut judge, coins)?;
    check_reduced::<Mersenne31>(coins)?;
    let prover = given.open(coins, &mut tables);
    talk(rt, &mut judge, prover, &mut tables)
}

fn work(rt: &HostRuntime) -> Result<(), Failure> {
    let [circuit, inputs] = arguments::<2>(rt)?;
    let circuit = read_file(rt, circuit.as_str())?;
    let inputs = read_file(rt, inputs.as_str())?;
    house(rt, Given::check(circuit.as_slice(), inputs.as_slice())?)
}

fn main(rt: HostRuntime) -> ExitCode {
    exit_code(&rt, USAGE, work(&rt))
}
