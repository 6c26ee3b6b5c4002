// dice N: prints N coins, one a line, made from the bytes of standard input.
// If the bytes end first, it has printed the coins so far and prints `no 2`.
#![tactic(auto)]

use programs::dice::coin_of_bytes;
use programs::number::one_number;
use refusals::Refusal;
use std::io;
use std::io::Read;
use std::process::ExitCode;
use streams::arguments::arguments;
use streams::failure::{Failure, exit_code};

const USAGE: &str = "dice N";

// Four more bytes, or the refusal where they end.
fn four_bytes(input: &mut io::Stdin) -> Result<[u8; 4], Failure> {
    let mut bytes = [0u8; 4];
    input
        .read_exact(&mut bytes)
        .map_err(|error| match error.kind() {
            io::ErrorKind::UnexpectedEof => Failure::from(Refusal::WrongCount),
            _ => Failure::System(error),
        })?;
    Ok(bytes)
}

// The next coin: four bytes that make the modulus make none.
fn next_coin(input: &mut io::Stdin) -> Result<u32, Failure> {
    // A count stands for no end: a loop on input without one gets no proof, and this one is never reached.
    for _ in 0..u64::MAX {
        if let Some(coin) = coin_of_bytes(four_bytes(input)?) {
            return Ok(coin);
        }
    }
    Err(Failure::from(Refusal::WrongCount))
}

fn roll(rt: &HostRuntime, count: u32) -> Result<(), Failure> {
    let mut input = rt.stdin();
    for _ in 0..count {
        let coin = next_coin(&mut input)?;
        println!(rt; "{coin}")?;
    }
    Ok(())
}

fn work(rt: &HostRuntime) -> Result<(), Failure> {
    let [count] = arguments::<1>(rt)?;
    roll(rt, one_number(count.as_str().as_bytes())?)
}

fn main(rt: HostRuntime) -> ExitCode {
    exit_code(&rt, USAGE, work(&rt))
}
