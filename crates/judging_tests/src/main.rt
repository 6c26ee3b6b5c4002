// A table of transcripts: for each, what the call answers and where the verifier stops believing.
// The file stdout has the table as it must be.
#![tactic(auto)]

mod refused;
mod table;

use crate::table::{HONEST_LAYERED, HONEST_PRODUCT, LAYERED_ANSWERS, row};
use judging::call::Transcript;
use std::io;

fn product(rt: &HostRuntime) -> io::Result<()> {
    let honest = HONEST_PRODUCT;
    row(rt, "a product", honest)?;
    let claimed = &[16];
    row(rt, "a wrong output", Transcript { claimed, ..honest })?;
    let coins = &[2, 5, 3];
    row(rt, "another coin", Transcript { coins, ..honest })?;
    let inputs = &[5, 3];
    row(rt, "other inputs", Transcript { inputs, ..honest })
}

// The layered circuit with one number of its answers changed.
fn changed(rt: &HostRuntime, name: &str, place: usize, number: u32) -> io::Result<()> {
    let mut answers = LAYERED_ANSWERS;
    if place < answers.len() {
        answers[place] = number;
    }
    let messages = &answers;
    let honest = HONEST_LAYERED;
    row(rt, name, Transcript { messages, ..honest })
}

fn layered(rt: &HostRuntime) -> io::Result<()> {
    changed(rt, "two layers in two copies", 28, 0)?;
    changed(rt, "the value at 0 of a copies' variable", 0, 1)?;
    changed(rt, "the value at 2 of a copies' variable", 2, 1)?;
    changed(rt, "the value at 3 of the last variable", 11, 1)?;
    changed(rt, "the first of two values", 12, 1)?;
    changed(rt, "the second of two values", 13, 1)?;
    changed(rt, "the value at 1 of a lower variable", 15, 1)?;
    changed(rt, "the value at 3 of a lower variable", 21, 1)?;
    changed(rt, "the last value", 27, 1)
}

// Two values that give the right expression and are not those of the inputs.
fn at_the_inputs(rt: &HostRuntime) -> io::Result<()> {
    let honest = HONEST_LAYERED;
    let mut answers = LAYERED_ANSWERS;
    answers[26] = 340;
    answers[27] = 1370177455;
    row(
        rt,
        "other values with the same expression",
        Transcript {
            messages: &answers,
            ..honest
        },
    )?;
    row(
        rt,
        "inputs in the other order",
        Transcript {
            inputs: &[5, 7, 2, 3],
            ..honest
        },
    )?;
    row(
        rt,
        "outputs in the other order",
        Transcript {
            claimed: &[420, 30],
            ..honest
        },
    )
}

fn main(rt: HostRuntime) -> io::Result<()> {
    product(&rt)?;
    layered(&rt)?;
    at_the_inputs(&rt)?;
    refused::counts(&rt)?;
    refused::numbers(&rt)?;
    refused::unreduced(&rt)?;
    refused::two_at_once(&rt)
}
