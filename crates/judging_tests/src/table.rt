// The circuits of the table with honest answers for them, and one row: what is answered, and where it stops believing.
// The honest answers were worked out apart from this code.
use judging::call::Transcript;
use judging::judge::{Judge, VerifierJudge};
use refusals::Refusal;
use std::io;
use verdicts::verdict::Verdict;

// from outside the code, as all numbers of a test
pub const MODULUS: u32 = 2147483647;

pub const PRODUCT_ANSWERS: [u32; 10] = [
    15, 0, 2147483612, 2147483557, 0, 2147483612, 2147483549, 2147483458, 7, 11,
];

// one copy, two inputs, one layer of one gate, a product
pub const HONEST_PRODUCT: Transcript = Transcript {
    circuit: &[0, 1, 1, 0, 1, 0, 1],
    inputs: &[3, 5],
    claimed: &[15],
    messages: &PRODUCT_ANSWERS,
    coins: &[2, 4, 3],
};

pub const LAYERED_ANSWERS: [u32; 28] = [
    2147483347, 4620, 38912, 128154, 7624452, 0, 2094455155, 1996022623, 0, 661958750, 179634714,
    700511539, 3534, 3799, 2147480314, 63852, 549185, 1821954, 258050667, 0, 1710591688,
    1094858437, 0, 1613544674, 1470650110, 1718799955, 339, 356,
];

// two copies: the sum and the product of two inputs, and above them the product of these two
pub const HONEST_LAYERED: Transcript = Transcript {
    circuit: &[1, 1, 2, 0, 1, 0, 1, 1, 0, 0, 1, 1, 0, 1],
    inputs: &[2, 3, 5, 7],
    claimed: &[30, 420],
    messages: &LAYERED_ANSWERS,
    coins: &[11, 12, 13, 14, 15, 16, 17, 18, 19],
};

fn tell(rt: &HostRuntime, examined: Result<Verdict, Refusal>) -> io::Result<()> {
    match examined {
        Err(_) => println!(rt; "refused"),
        Ok(Verdict::Believed) => println!(rt; "believed"),
        Ok(Verdict::Stopped(layer, place)) => println!(rt; "layer {layer}, {place}"),
    }
}

// What the call answers for these words, and the verdict behind it.
pub fn row(rt: &HostRuntime, name: &str, transcript: Transcript) -> io::Result<()> {
    let Transcript {
        circuit,
        inputs,
        claimed,
        messages,
        coins,
    } = transcript;
    let answer = VerifierJudge::judge(circuit, inputs, claimed, messages, coins);
    print!(rt; "{name}: {answer}, ")?;
    tell(rt, transcript.examine())
}
