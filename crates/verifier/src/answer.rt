// An answer that was read, and the coin that falls for it.
// Neither can be copied or let go: an answer becomes a coin or lapses, and a coin is spent by a step.
ghost use Rattle.std.specs.Prelude.{◌<◌};
ghost use Rattle.circuits.specs.Words.{modulus};

use claims::message::Message;

mod turning;

// What the verifier has read and found to fit where it stands.
pub struct Answer {
    message: Message,
}

// The coin that fell for an answer, and that answer.
pub struct Coin {
    message: Message,
    word: u32,
    ghost reduced: { word < modulus },
}
