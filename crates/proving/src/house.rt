// What a house owes: to work a circuit out, and to prove what it gives, as functions of lent words.
// The honest house answers as the honest prover does.
ghost use Rattle.std.specs.Prelude.{◌≡◌, ℕ, List, length, replicate, ◌≢◌};
ghost use Rattle.arithmetic.specs.Numbers.{modulo};
ghost use Rattle.argument.specs.Honest.{honest as honest_prover};
ghost use Rattle.argument.specs.Sumcheck.{Prover};
ghost use Rattle.argument.specs.Transcript.{judged, prove_verdict, spoken};
ghost use Rattle.circuits.specs.Circuit.{outputs};
ghost use Rattle.circuits.specs.Words.{modulus as field, circuit_of, run_verdict, run_leaves};

use crate::proving::try_prove;
use evaluation::run as work_circuit_out;
use refusals::answer;

pub trait House {
    // What an honest house answers, from the coins so far.
    ghost honest: { List ℕ → List ℕ → Prover ℕ };

    // Works all copies out.
    fn run(circuit: &[u32], inputs: &[u32], room: &mut [u32]) -> u32
        ensures verdict { result ≡ run_verdict circuit.now inputs.now (length room.old) }
        ensures leaves { room.new ≡ run_leaves circuit.now inputs.now room.old };

    // Answers, for these coins, with which the right outputs are believed. Each is what the honest house answers after the coins before it, so that it does not change with a later coin.
    fn prove(
        circuit: &[u32],
        inputs: &[u32],
        coins: &[u32],
        room: &mut [u32],
        work: &mut [u32],
    ) -> u32
        ensures verdict { result ≡ prove_verdict circuit.now inputs.now coins.now (length room.old) (length work.old) }
        ensures believed { result ≡ 0 → judged circuit.now inputs.now (outputs (modulo field) (circuit_of circuit.now) inputs.now) room.new coins.now ≡ 0 }
        ensures answers { result ≡ 0 → room.new ≡ spoken (honest circuit.now inputs.now) (circuit_of circuit.now) coins.now }
        ensures room_kept { (result ≢ 0) → room.new ≡ room.old }
        ensures work_cleared { result ≡ 0 → work.new ≡ replicate (length work.old) 0 }
        ensures work_kept { (result ≢ 0) → work.new ≡ work.old };
}

pub struct HonestHouse;

impl House for HonestHouse {
    ghost honest = { λ cs vs. honest_prover (modulo field) (circuit_of cs) vs };

    fn run(circuit: &[u32], inputs: &[u32], room: &mut [u32]) -> u32 {
        work_circuit_out(circuit, inputs, room)
    }

    fn prove(
        circuit: &[u32],
        inputs: &[u32],
        coins: &[u32],
        room: &mut [u32],
        work: &mut [u32],
    ) -> u32 {
        answer(try_prove(circuit, inputs, coins, room, work))
    }
}
