// Why a call or a program refuses what it was given, and the number by which it is known outside the code.
// No refusal is 0, which stands for the work done.
#![tactic(auto)]

ghost use Rattle.std.specs.Prelude.{◌≡◌};
ghost use Rattle.refusals.specs.Refusals.{number_of, answer_of};

#[derive(Clone, Copy, PartialEq, Eq, Debug)]
pub enum Refusal {
    // words that are no lawful circuit
    NoCircuit = 1,
    // not as many inputs, outputs, answers' numbers, coins or lent words as it takes
    WrongCount = 2,
    // a number that is not below the modulus
    NotReduced = 3,
    // an answer that is not believed
    NotBelieved = 4,
    // a text of no known form
    UnknownForm = 5,
}

impl Refusal {
    pub fn number(self) -> u32
        ensures { result ≡ number_of self }
    {
        self as u32
    }
}

// What a call answers that has done its work, or refused it.
pub fn answer(done: Result<(), Refusal>) -> u32
    ensures { result ≡ answer_of done }
{
    match done {
        Ok(()) => 0,
        Err(refusal) => refusal.number(),
    }
}
