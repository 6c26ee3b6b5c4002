// Files of numbers that are read whole, and lines of them.
// A file that cannot be read as numbers is a text of no known form: nothing else can be said of it.
ghost use Rattle.std.specs.Prelude.{IfErr};
ghost use Rattle.streams.specs.Failures.{RefusedBy};

use crate::failure::Failure;
use refusals::Refusal;
use std::{fs, io};
use texts::whole::read_numbers;

// The numbers of a file; a refusal is by 5. Why a file could not be opened or read goes to standard error.
pub fn read_file(rt: &HostRuntime, path: &str) -> Result<Vec<u32>, Failure>
    ensures { IfErr result (RefusedBy 5) }
{
    match fs::read(rt, path) {
        Ok(text) => Ok(read_numbers(rt.alloc(), text.as_slice())?),
        Err(error) => {
            eprintln!(rt; "{path}: {error}")?;
            match error.kind() {
                io::ErrorKind::OutOfMemory => Err(Failure::System(error)),
                _ => Err(Failure::from(Refusal::UnknownForm)),
            }
        }
    }
}
