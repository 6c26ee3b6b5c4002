// The file DICE, read byte by byte and never ahead: it may be a pipe that is fed coin by coin.
// What each byte makes known is the scanner's.
ghost use Rattle.std.specs.Prelude.{◌≡◌, IfErr, MatchResult};
ghost use Rattle.programs.specs.Scanning.{at_end};
ghost use Rattle.streams.specs.Failures.{IsSystem, RefusedBy};

use crate::failure::Failure;
use programs::drawn::{NoNumber, Word, due, nothing_left};
use programs::scanner::Spot;
use refusals::Refusal;
use std::fs::File;
use std::io::Read;
use std::{fs, io, mem};
use texts::gap::Gap;

#[derive(Drop)]
pub struct Dice {
    file: File,
    spot: Spot,
}

impl Dice {
    // Opens the file; a refusal is by 5. Why it could not be opened goes to standard error.
    pub fn open(rt: &HostRuntime, path: &str) -> Result<Dice, Failure>
        ensures { MatchResult result (λ d. d.spot ≡ Spot.Gap Gap.First) (RefusedBy 5) }
    {
        match fs::open(rt, path) {
            Ok(file) => Ok(Dice {
                file,
                spot: Spot::Gap(Gap::First),
            }),
            Err(error) => {
                eprintln!(rt; "{path}: {error}")?;
                Err(Failure::from(Refusal::UnknownForm))
            }
        }
    }

    // What the end of the file makes known, and after that nothing.
    fn end(&mut self) -> Option<u32>
        ensures drawn { result ≡ at_end self.old.spot }
        ensures over { self.new.spot ≡ Spot.Gap Gap.First }
    {
        mem::replace(&mut self.spot, Spot::Gap(Gap::First)).end()
    }

    // One more byte, or none at the end.
    fn byte(&mut self) -> io::Result<Option<u8>> {
        let mut byte = [0u8; 1];
        let len = self.file.read(&mut byte)?;
        Ok((len > 0).then_some(byte[0]))
    }

    // Reads on to the byte that ends the next word.
    fn draw(&mut self) -> io::Result<Word> {
        // A count stands for no end: a loop on input without one gets no proof, and this one is never reached.
        for _ in 0..u64::MAX {
            let Some(byte) = self.byte()? else {
                return Ok(Ok(self.end()));
            };
            let (spot, word) = self.spot.push(byte);
            self.spot = spot;
            if word != Ok(None) {
                return Ok(word);
            }
        }
        Ok(Ok(None))
    }

    // The next word; a file that cannot be read holds none that is a number, and the reason goes to standard error.
    fn word(&mut self, rt: &HostRuntime) -> Result<Word, Failure>
        ensures { IfErr result IsSystem }
    {
        match self.draw() {
            Ok(word) => Ok(word),
            Err(error) => {
                eprintln!(rt; "{error}")?;
                Ok(Err(NoNumber))
            }
        }
    }

    // The number where a coin is due.
    pub fn due(&mut self, rt: &HostRuntime) -> Result<u32, Failure> {
        Ok(due(self.word(rt)?)?)
    }

    // That nothing is left.
    pub fn close(&mut self, rt: &HostRuntime) -> Result<(), Failure> {
        Ok(nothing_left(self.word(rt)?)?)
    }
}
