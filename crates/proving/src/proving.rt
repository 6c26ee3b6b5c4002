// Proving for given coins: all is checked, then the prover speaks in four tables over the work, which is cleared.
// The prover takes one coin after the other, so that no answer depends on a later one.
ghost use Rattle.std.specs.Prelude.{◌≡◌, ◌+◌, ◌^◌, ◌&&◌, length, replicate, MatchResult, ◌==◌};
ghost use Rattle.argument.specs.Argument.{coins_of};
ghost use Rattle.argument.specs.Transcript.{answer_words, prove_verdict};
ghost use Rattle.refusals.specs.Refusals.{RefusedUnless, number_of};
ghost use Rattle.circuits.specs.Views.{circuit_seen, words_seen};
ghost use Rattle.proving.specs.Proves.{Ready, Answered};

use crate::speaking::answer_all;
use arithmetic::mersenne::Mersenne31;
use circuits::{CircuitView, check_reduced};
use judging::checks::{check_lengths, first_coins};
use phases::quarters::{Tables, WORK};
use prover::prover::HonestProver;
use refusals::Refusal;

fn check_rooms(
    circuit: CircuitView,
    inputs: usize,
    room: usize,
    coins: usize,
    work: usize,
) -> Result<(), Refusal>
    ensures { RefusedUnless (inputs == 2 ^ ((circuit_seen circuit.entry).copies + (circuit_seen circuit.entry).inputs) && (room == answer_words (circuit_seen circuit.entry) && (coins == coins_of (circuit_seen circuit.entry) && work == 2 ^ 18))) Refusal.WrongCount result }
{
    if inputs != circuit.input_count() || work != WORK {
        return Err(Refusal::WrongCount);
    }
    check_lengths(circuit, room, coins)
}

fn check_all<'a>(
    circuit: &'a [u32],
    inputs: &[u32],
    coins: &[u32],
    room: usize,
    work: usize,
) -> Result<CircuitView<'a>, Refusal>
    ensures { MatchResult result (λ view. (words_seen view ≡ circuit.now) × Ready circuit.now inputs.now coins.now room work) (λ e. number_of e ≡ prove_verdict circuit.now inputs.now coins.now room work) }
{
    let view = CircuitView::check(circuit)?;
    check_rooms(view, inputs.len(), room, coins.len(), work)?;
    check_reduced::<Mersenne31>(inputs)?;
    check_reduced::<Mersenne31>(coins)?;
    Ok(view)
}

// In four tables over the work.
fn speak<'a>(
    circuit: CircuitView<'a>,
    inputs: &'a [u32],
    coins: &[u32],
    room: &mut [u32],
    work: &mut [u32],
)
    requires { Ready (words_seen circuit) inputs.now coins.now (length room.old) (length work.old) }
    ensures { Answered (words_seen circuit.entry) inputs.now coins.now room.new }
{
    let mut tables = Tables::over(work);
    let prover = HonestProver::open(circuit, inputs, coins, &mut tables);
    answer_all(prover, &coins[first_coins(circuit)..], room, &mut tables);
}

// The work is cleared whole, since nothing is known of it once its tables were lent.
pub fn try_prove(
    circuit: &[u32],
    inputs: &[u32],
    coins: &[u32],
    room: &mut [u32],
    work: &mut [u32],
) -> Result<(), Refusal>
    ensures { MatchResult result (λ _. Ready circuit.now inputs.now coins.now (length room.old) (length work.old) × (Answered circuit.now inputs.now coins.now room.new × (work.new ≡ replicate (length work.old) 0))) (λ e. (number_of e ≡ prove_verdict circuit.now inputs.now coins.now (length room.old) (length work.old)) × ((room.new ≡ room.old) × (work.new ≡ work.old))) }
{
    let view = check_all(circuit, inputs, coins, room.len(), work.len())?;
    speak(view, inputs, coins, room, work);
    work.fill(0);
    Ok(())
}
