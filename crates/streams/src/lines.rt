// Lines that come from the other program, one by one.
// A line keeps its end: it reads as the same numbers with it.
ghost use Rattle.std.specs.Prelude.{IfErr};
ghost use Rattle.streams.specs.Failures.{IsSystem, IsNoMemory};

use crate::failure::Failure;
use std::alloc::Global;
use std::io;
use std::io::{BufRead, BufReader};

#[derive(Drop)]
pub struct LinesIn {
    input: BufReader<io::Stdin>,
}

impl LinesIn {
    // The lines of standard input. Where there is no memory for its buffer, nothing has been read.
    pub fn new(rt: &HostRuntime) -> Result<LinesIn, Failure>
        ensures { IfErr result IsNoMemory }
    {
        let input = BufReader::new(rt.alloc(), rt.stdin())?;
        Ok(LinesIn { input })
    }

    // The next line; none where there are no more.
    pub fn next(&mut self, heap: Global) -> Result<Option<Vec<u8>>, Failure>
        ensures { IfErr result IsSystem }
    {
        let mut line = Vec::new(heap);
        if self.input.read_until(b'\n', &mut line)? == 0 {
            Ok(None)
        } else {
            Ok(Some(line))
        }
    }

    // Reads on to the end.
    pub fn drain(&mut self, heap: Global) -> Result<(), Failure>
        ensures { IfErr result IsSystem }
    {
        // A count stands for no end: a loop on input without one gets no proof, and this one is never reached.
        for _ in 0..u64::MAX {
            if self.next(heap)?.is_none() {
                break;
            }
        }
        Ok(())
    }
}
