// Why a program ends with status 1, and what it says then.
// A refusal is printed on standard output, as `no 3`; all else on standard error.
ghost use Rattle.std.specs.Prelude.{◌≡◌, cond, is_err};
ghost use Rattle.std.specs.Process.{exit_status};
ghost use Rattle.streams.specs.Failures.{IsSystem, TextFailed};
ghost use Rattle.streams.specs.declared.failure.Failure.TheVariants.{Refused, System};

use refusals::Refusal;
use std::alloc::AllocError;
use std::io;
use std::process::ExitCode;
use texts::error::TextError;

#[derive(Drop)]
pub enum Failure {
    // not the arguments that it takes
    Usage,
    Refused(Refusal),
    // something that was judged and not believed, which has been printed already
    NotBelieved,
    // wanting memory, or lines that cannot be read or written
    System(io::Error),
}

impl From<io::Error> for Failure {
    ghost from_gives = { λ e r. r ≡ System e };

    fn from(error: io::Error) -> Failure {
        Failure::System(error)
    }
}

impl From<Refusal> for Failure {
    ghost from_gives = { λ e r. r ≡ Refused e };

    fn from(refusal: Refusal) -> Failure {
        Failure::Refused(refusal)
    }
}

impl From<AllocError> for Failure {
    ghost from_gives = { λ _ r. IsSystem r };

    fn from(_: AllocError) -> Failure {
        Failure::System(io::Error::from(io::ErrorKind::OutOfMemory))
    }
}

impl From<TextError> for Failure {
    ghost from_gives = { TextFailed };

    fn from(error: TextError) -> Failure {
        match error.refusal() {
            Some(refusal) => Failure::from(refusal),
            None => Failure::from(AllocError),
        }
    }
}

// Says why the program with this usage line ends.
// No Display: each kind goes to a stream of its own, and one of them needs the usage line.
pub fn tell(rt: &HostRuntime, usage: &str, failure: &Failure) -> io::Result<()> {
    match failure {
        Failure::Usage => eprintln!(rt; "usage: {usage}"),
        Failure::Refused(why) => println!(rt; "no {}", why.number()),
        Failure::NotBelieved => Ok(()),
        Failure::System(error) => eprintln!(rt; "{error}"),
    }
}

// How a program ends that has done its work so: a failure is reported, and makes the status 1.
pub fn exit_code(rt: &HostRuntime, usage: &str, done: Result<(), Failure>) -> ExitCode
    ensures { exit_status result ≡ cond (is_err done) 1 0 }
{
    match done {
        Ok(()) => ExitCode::SUCCESS,
        Err(failure) => {
            // where it cannot be said, the status says it alone
            let _ = tell(rt, usage, &failure);
            ExitCode::FAILURE
        }
    }
}
