// run CIRCUIT INPUTS: works a circuit out and prints its outputs, 16 in a line.
// A refusal prints `no` and its number and ends with status 1.
#![tactic(auto)]

use evaluation::try_run;
use programs::room::outputs_len;
use std::process::ExitCode;
use streams::arguments::arguments;
use streams::failure::{Failure, exit_code};
use streams::files::read_file;
use texts::written::write_lines;

const USAGE: &str = "run CIRCUIT INPUTS";

fn print_outputs(rt: &HostRuntime, circuit: &[u32], inputs: &[u32]) -> Result<(), Failure> {
    let len = outputs_len(circuit)?;
    let mut room = vec![in rt.alloc(); 0u32; len]?;
    try_run(circuit, inputs, room.as_mut_slice())?;
    rt.print(write_lines(rt.alloc(), room.as_slice())?)?;
    Ok(())
}

fn work(rt: &HostRuntime) -> Result<(), Failure> {
    let [circuit, inputs] = arguments::<2>(rt)?;
    let circuit = read_file(rt, circuit.as_str())?;
    let inputs = read_file(rt, inputs.as_str())?;
    print_outputs(rt, circuit.as_slice(), inputs.as_slice())
}

fn main(rt: HostRuntime) -> ExitCode {
    exit_code(&rt, USAGE, work(&rt))
}
