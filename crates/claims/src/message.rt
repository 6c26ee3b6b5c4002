// A message of the prover: the answer to which a coin then falls.
// A round's is the values of a variable's polynomial at 0 to 3; at a layer's end come the two values below.
ghost use Rattle.std.specs.Prelude.{◌≡◌};
ghost use Rattle.claims.specs.Messages.{numbers_of};

#[derive(Clone, Copy, PartialEq, Eq, Debug)]
pub enum Message {
    Round([u32; 4]),
    Values([u32; 2]),
}

impl Message {
    // Its numbers, in the order in which a transcript has them.
    pub fn as_slice(&self) -> &[u32]
        ensures { result.now ≡ numbers_of self.now }
    {
        match self {
            Message::Round(numbers) => numbers,
            Message::Values(numbers) => numbers,
        }
    }
}
