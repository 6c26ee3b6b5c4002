// The calls as C functions, for programs in other languages.
// A slice is passed as a pointer and a length.
#![tactic(auto)]

ghost use Rattle.std.specs.Prelude.{◌≡◌, length, replicate};
ghost use Rattle.argument.specs.Transcript.{judged, prove_verdict, spoken};
ghost use Rattle.argument.specs.Honest.{honest};
ghost use Rattle.arithmetic.specs.Numbers.{modulo};
ghost use Rattle.circuits.specs.Circuit.{outputs};
ghost use Rattle.circuits.specs.Words.{modulus, circuit_of, run_verdict, run_leaves};
ghost use Rattle.verdicts.specs.Soundness.{JudgesSoundly, JudgesRowsSoundly, JudgesProversSoundly};

use judging::judge::{Judge, VerifierJudge};
use proving::house::{HonestHouse, House};

#[unsafe(no_mangle)]
pub extern "C" fn ciderdune_run(circuit: &[u32], inputs: &[u32], room: &mut [u32]) -> u32
    ensures verdict { result ≡ run_verdict circuit.now inputs.now (length room.old) }
    ensures leaves { room.new ≡ run_leaves circuit.now inputs.now room.old }
{
    HonestHouse::run(circuit, inputs, room)
}

#[unsafe(no_mangle)]
pub extern "C" fn ciderdune_prove(
    circuit: &[u32],
    inputs: &[u32],
    coins: &[u32],
    room: &mut [u32],
    work: &mut [u32],
) -> u32
    ensures verdict { result ≡ prove_verdict circuit.now inputs.now coins.now (length room.old) (length work.old) }
    ensures believed { result ≡ 0 → judged circuit.now inputs.now (outputs (modulo modulus) (circuit_of circuit.now) inputs.now) room.new coins.now ≡ 0 }
    ensures answers { result ≡ 0 → room.new ≡ spoken (honest (modulo modulus) (circuit_of circuit.now) inputs.now) (circuit_of circuit.now) coins.now }
    ensures room_kept { (result ≡ 0 → ⊥) → room.new ≡ room.old }
    ensures cleared { result ≡ 0 → work.new ≡ replicate (length work.old) 0 }
    ensures work_kept { (result ≡ 0 → ⊥) → work.new ≡ work.old }
{
    HonestHouse::prove(circuit, inputs, coins, room, work)
}

#[unsafe(no_mangle)]
pub extern "C" fn ciderdune_judge(
    circuit: &[u32],
    inputs: &[u32],
    claimed: &[u32],
    messages: &[u32],
    coins: &[u32],
) -> u32
    ensures answer { result ≡ judged circuit.now inputs.now claimed.now messages.now coins.now }
    ensures sound { JudgesSoundly circuit.now inputs.now claimed.now }
    ensures sound_in_rows { JudgesRowsSoundly circuit.now inputs.now claimed.now }
    ensures sound_for_provers { JudgesProversSoundly circuit.now inputs.now claimed.now }
{
    VerifierJudge::judge(circuit, inputs, claimed, messages, coins)
}
