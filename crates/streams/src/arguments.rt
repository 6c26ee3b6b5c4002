// The arguments that a program is given, as many as it takes.
// The name by which it was called comes before them, and is passed over.
ghost use Rattle.std.specs.Prelude.{◌<◌, IfErr};
ghost use Rattle.streams.specs.Failures.{IsUsage};

use crate::failure::Failure;
use std::{array, env};

// As many as the caller's pattern names. The limit is one on the room that they take.
pub fn arguments<const N: usize>(rt: &HostRuntime) -> Result<[String; N], Failure>
    requires { N < 256 }
    ensures { IfErr result IsUsage }
{
    let mut args = env::args(rt)?;
    let _ = args.next();
    let given = array::try_from_fn(|_| args.next().ok_or(Failure::Usage))?;
    match args.next() {
        None => Ok(given),
        Some(_) => Err(Failure::Usage),
    }
}
