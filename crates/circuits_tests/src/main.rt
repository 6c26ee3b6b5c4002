// A table of circuits at the edges of what is lawful: for each, what `run` answers and what the room holds then.
// The file stdout has the table as it must be; a room starts with 7 at each place.
#![tactic(auto)]

ghost use Rattle.std.specs.Prelude.{◌≡◌, ◌+◌, ◌*◌};

mod cases;

use cases::{CASES, Case};
use circuits::MOST_PLACES;
use evaluation::run;
use std::io;

// no case has room for more
const MOST_ROOM: usize = 4;

fn show(rt: &HostRuntime, case: &Case) -> io::Result<()> {
    let mut rooms = [7; MOST_ROOM];
    let room = &mut rooms[0..case.room.min(MOST_ROOM)];
    let answer = run(case.circuit, case.inputs, room);
    let name = case.name;
    println!(rt; "{name}: {answer} {room:?}")
}

// Each layer doubles the one value of the layer below it.
fn tower<const WORDS: usize>(rt: &HostRuntime, layers: u32) -> io::Result<()>
    requires { WORDS ≡ 3 + 4 * layers }
{
    let mut circuit = [0; WORDS];
    circuit[2] = layers;
    let mut room = [7];
    let answer = run(&circuit, &[5], &mut room);
    println!(rt; "{layers} layers: {answer} {room:?}")
}

fn wide(rt: &HostRuntime) -> io::Result<()> {
    let circuit = [16, 0, 1, 0, 0, 0, 0];
    let mut inputs = [1; MOST_PLACES];
    inputs[MOST_PLACES - 1] = 4;
    let mut room = [7; MOST_PLACES];
    let answer = run(&circuit, &inputs, &mut room);
    let first = room[0];
    let last = room[MOST_PLACES - 1];
    println!(rt; "16 bits of copies: {answer}, from {first} to {last}")
}

fn main(rt: HostRuntime) -> io::Result<()> {
    for case in &CASES {
        show(&rt, case)?;
    }
    tower::<131>(&rt, 32)?;
    tower::<135>(&rt, 33)?;
    wide(&rt)
}
