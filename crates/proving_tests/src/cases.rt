// The cases of the table: circuit, inputs and coins, and how many places the rooms for outputs and answers have.
// A circuit's words are copies, inputs, layers; for each layer its size, and for each gate kind, left and right.

// from outside the code, as all numbers of a test
pub const MODULUS: u32 = 2147483647;

// one copy, two inputs, one layer of one gate
const PRODUCT: [u32; 7] = [0, 1, 1, 0, 1, 0, 1];

const SUM: [u32; 7] = [0, 1, 1, 0, 0, 0, 1];

// two copies of a layer of two gates: the first input twice, and the second times the first
const PAIRS: [u32; 10] = [1, 1, 1, 1, 0, 0, 0, 1, 1, 0];

#[derive(Clone, Copy)]
pub struct Case<'a> {
    pub name: &'static str,
    pub circuit: &'a [u32],
    pub inputs: &'a [u32],
    pub coins: &'a [u32],
    pub outputs: usize,
    pub answers: usize,
}

pub const CASES: [Case; 9] = [
    Case {
        name: "a product",
        circuit: &PRODUCT,
        inputs: &[3, 5],
        coins: &[2, 4, 3],
        outputs: 1,
        answers: 10,
    },
    Case {
        name: "a sum",
        circuit: &SUM,
        inputs: &[3, 5],
        coins: &[9, 8, 7],
        outputs: 1,
        answers: 10,
    },
    Case {
        name: "one place twice",
        circuit: &[0, 1, 1, 0, 1, 1, 1],
        inputs: &[3, 5],
        coins: &[9, 8, 7],
        outputs: 1,
        answers: 10,
    },
    Case {
        name: "no bits of inputs",
        circuit: &[0, 0, 1, 0, 1, 0, 0],
        inputs: &[9],
        coins: &[5],
        outputs: 1,
        answers: 2,
    },
    Case {
        name: "copies alone",
        circuit: &[2, 0, 1, 0, 1, 0, 0],
        inputs: &[1, 2, 3, 4],
        coins: &[5, 6, 7, 8, 9],
        outputs: 4,
        answers: 10,
    },
    Case {
        name: "two copies",
        circuit: &PAIRS,
        inputs: &[2, 3, 10, 20],
        coins: &[11, 12, 13, 14, 15, 16],
        outputs: 4,
        answers: 14,
    },
    Case {
        name: "a layer above another",
        circuit: &[0, 1, 2, 0, 1, 0, 1, 1, 0, 0, 1, 0, 0, 0],
        inputs: &[3, 4],
        coins: &[5, 6, 7, 8, 9, 10],
        outputs: 1,
        answers: 20,
    },
    Case {
        name: "sums in copies",
        circuit: &[1, 1, 2, 0, 0, 0, 1, 1, 0, 0, 1, 0, 1, 1],
        inputs: &[1, 2, 3, 4],
        coins: &[5, 6, 7, 8, 9, 10, 11, 12, 13],
        outputs: 2,
        answers: 28,
    },
    Case {
        name: "products in copies",
        circuit: &[1, 1, 2, 0, 1, 0, 1, 1, 1, 0, 1, 1, 1, 1],
        inputs: &[1, 2, 3, 4],
        coins: &[5, 6, 7, 8, 9, 10, 11, 12, 13],
        outputs: 2,
        answers: 28,
    },
];

// where the coins are the edge, or a call refuses
pub const MORE_CASES: [Case; 7] = [
    Case {
        name: "coins 0",
        circuit: &PAIRS,
        inputs: &[2, 3, 10, 20],
        coins: &[0; 6],
        outputs: 4,
        answers: 14,
    },
    Case {
        name: "coins 1",
        circuit: &PAIRS,
        inputs: &[2, 3, 10, 20],
        coins: &[1; 6],
        outputs: 4,
        answers: 14,
    },
    Case {
        name: "coins p - 1",
        circuit: &PAIRS,
        inputs: &[2, 3, 10, 20],
        coins: &[MODULUS - 1; 6],
        outputs: 4,
        answers: 14,
    },
    Case {
        name: "the modulus as a coin",
        circuit: &PRODUCT,
        inputs: &[3, 5],
        coins: &[2, MODULUS, 3],
        outputs: 1,
        answers: 10,
    },
    Case {
        name: "a coin too few",
        circuit: &PRODUCT,
        inputs: &[3, 5],
        coins: &[2, 4],
        outputs: 1,
        answers: 10,
    },
    Case {
        name: "room for too few",
        circuit: &PRODUCT,
        inputs: &[3, 5],
        coins: &[2, 4, 3],
        outputs: 1,
        answers: 9,
    },
    Case {
        name: "no circuit",
        circuit: &[0, 1, 1, 0, 1, 0, 2],
        inputs: &[3, 5],
        coins: &[2, 4, 3],
        outputs: 1,
        answers: 10,
    },
];
