// The answers along given coins, written one after the other.
// Each is written before the coin after it is looked at; after the last coin nothing is answered.
ghost use Rattle.std.specs.Prelude.{◌≡◌, ◌+◌, ◌≤◌, T, ◌++◌, length, take};
ghost use Rattle.arithmetic.specs.Numbers.{modulo, all_reduced};
ghost use Rattle.argument.specs.Transcript.{answers_along};
ghost use Rattle.circuits.specs.Words.{modulus};
ghost use Rattle.claims.specs.Messages.{numbers_of};
ghost use Rattle.phases.specs.References.{SameReferences};
ghost use Rattle.prover.specs.Provers.{Stands, speaks, coins_left, words_left};

use claims::message::Message;
use phases::quarters::Tables;
use prover::prover::HonestProver;

// Writes a message at a place of the room, and gives the place after it. It is no plainer to hand on the rest of the
// room: a `&mut` that each turn makes anew needs a clause on what is left behind each.
fn write(message: Message, room: &mut [u32], at: usize) -> usize
    requires { at + length (numbers_of message) ≤ length room.old }
    ensures place { result ≡ at + length (numbers_of message) }
    ensures words { take result room.new ≡ take at room.old ++ numbers_of message }
{
    let numbers = message.as_slice();
    let end = at + numbers.len();
    room[at..end].copy_from_slice(numbers);
    end
}

pub fn answer_all(mut prover: HonestProver, coins: &[u32], room: &mut [u32], tables: &mut Tables)
    requires stands { Stands 0 0 prover tables.old }
    requires counts { (length coins.now ≡ coins_left prover) × (length room.old ≡ words_left prover) }
    requires coins { T (all_reduced (modulo modulus) coins.now) }
    ensures room { room.new ≡ answers_along (length coins.now) (speaks prover.entry) 0 coins.now }
    ensures reduced { T (all_reduced (modulo modulus) room.new) }
    ensures same_references { SameReferences tables.old tables.new }
{
    let Some((_, before)) = coins.split_last() else {
        return;
    };
    let mut at = 0;
    for coin in before {
        at = write(prover.say(tables), room, at);
        prover.hear(*coin, tables);
    }
    write(prover.say(tables), room, at);
}
