// A table of circuits and coins: what `prove` writes is judged, as it is and with each of its numbers changed by one.
// A coin that is itself 0, 1, 2 or 3 looks at the value there alone, so that a change at 2 or 3 may not be seen.
#![tactic(auto)]

ghost use Rattle.std.specs.Prelude.{◌<◌, length};

mod cases;

use cases::{CASES, Case, MODULUS, MORE_CASES};
use judging::judge::{Judge, VerifierJudge};
use proving::house::{HonestHouse, House};
use std::io;

// no case has room for more
const MOST_OUTPUTS: usize = 4;

const MOST_ANSWERS: usize = 64;

fn changed(number: u32) -> u32 {
    if number >= MODULUS - 1 { 0 } else { number + 1 }
}

// Whether one of the answers' numbers cannot be changed by one unseen.
fn is_seen(case: &Case, claimed: &[u32], answers: &mut [u32], place: usize) -> bool
    requires { place < length answers.old }
{
    let number = answers[place];
    answers[place] = changed(number);
    let judged = VerifierJudge::judge(case.circuit, case.inputs, claimed, answers, case.coins);
    answers[place] = number;
    judged == 4
}

// How many of them cannot.
fn count_seen(case: &Case, claimed: &[u32], answers: &mut [u32]) -> usize {
    (0..answers.len())
        .filter(|place| is_seen(case, claimed, answers, *place))
        .count()
}

// The three calls' answers, whether the work is clear then, and how many changed numbers are seen.
// Each room starts with 7 at each place.
fn show(rt: &HostRuntime, case: &Case) -> io::Result<()> {
    let mut work = [7; 262144];
    let mut output_room = [7; MOST_OUTPUTS];
    let outputs = &mut output_room[0..case.outputs.min(MOST_OUTPUTS)];
    let mut answer_room = [7; MOST_ANSWERS];
    let answers = &mut answer_room[0..case.answers.min(MOST_ANSWERS)];
    let ran = HonestHouse::run(case.circuit, case.inputs, outputs);
    let proved = HonestHouse::prove(case.circuit, case.inputs, case.coins, answers, &mut work);
    let judged = VerifierJudge::judge(case.circuit, case.inputs, outputs, answers, case.coins);
    let clear = work.iter().all(|word| *word == 0);
    let seen = count_seen(case, outputs, answers);
    let name = case.name;
    let all = answers.len();
    println!(rt; "{name}: {ran} {proved} {judged}, work clear {clear}, {seen} of {all} seen")
}

// Each layer doubles the one value of the layer below it.
fn tower(rt: &HostRuntime) -> io::Result<()> {
    let mut circuit = [0; 131];
    circuit[2] = 32;
    let case = Case {
        name: "32 layers",
        circuit: &circuit,
        inputs: &[5],
        coins: &[3; 32],
        outputs: 1,
        answers: 64,
    };
    show(rt, &case)
}

fn main(rt: HostRuntime) -> io::Result<()> {
    for case in &CASES {
        show(&rt, case)?;
    }
    tower(&rt)?;
    for case in &MORE_CASES {
        show(&rt, case)?;
    }
    Ok(())
}
