// The cases of the table: words, inputs, and how many places the room has.
// A circuit's words are copies, inputs, layers; for each layer its size, and for each gate kind, left and right.

// from outside the code, as all numbers of a test
const MODULUS: u32 = 2147483647;

const HUGE: u32 = 4294967295;

// one copy, two inputs, one layer of one gate
const PRODUCT: [u32; 7] = [0, 1, 1, 0, 1, 0, 1];

const SUM: [u32; 7] = [0, 1, 1, 0, 0, 0, 1];

pub struct Case {
    pub name: &'static str,
    pub circuit: &'static [u32],
    pub inputs: &'static [u32],
    pub room: usize,
}

pub const CASES: [Case; 25] = [
    Case {
        name: "a product",
        circuit: &PRODUCT,
        inputs: &[3, 5],
        room: 1,
    },
    Case {
        name: "a sum",
        circuit: &SUM,
        inputs: &[3, 5],
        room: 1,
    },
    Case {
        name: "a sum past the modulus",
        circuit: &SUM,
        inputs: &[MODULUS - 1, 5],
        room: 1,
    },
    Case {
        name: "a product past the modulus",
        circuit: &PRODUCT,
        inputs: &[MODULUS - 1, MODULUS - 2],
        room: 1,
    },
    Case {
        name: "two copies",
        circuit: &[1, 1, 1, 1, 0, 0, 0, 1, 1, 0],
        inputs: &[2, 3, 10, 20],
        room: 4,
    },
    Case {
        name: "no bits of inputs",
        circuit: &[0, 0, 1, 0, 1, 0, 0],
        inputs: &[9],
        room: 1,
    },
    Case {
        name: "a layer above another",
        circuit: &[0, 1, 2, 0, 1, 0, 1, 1, 0, 0, 1, 0, 0, 0],
        inputs: &[3, 4],
        room: 1,
    },
    Case {
        name: "no words",
        circuit: &[],
        inputs: &[3, 5],
        room: 1,
    },
    Case {
        name: "a word too few",
        circuit: &[0, 1, 1, 0, 1, 0],
        inputs: &[3, 5],
        room: 1,
    },
    Case {
        name: "a word too many",
        circuit: &[0, 1, 1, 0, 1, 0, 1, 0],
        inputs: &[3, 5],
        room: 1,
    },
    Case {
        name: "no layer",
        circuit: &[0, 1, 0],
        inputs: &[3, 5],
        room: 2,
    },
    Case {
        name: "a huge size",
        circuit: &[0, 1, 1, HUGE, 1, 0, 1],
        inputs: &[3, 5],
        room: 1,
    },
    Case {
        name: "huge copies",
        circuit: &[HUGE, 1, 1, 0, 1, 0, 1],
        inputs: &[3, 5],
        room: 1,
    },
    Case {
        name: "copies and inputs of 17 bits",
        circuit: &[16, 1, 1, 0, 1, 0, 1],
        inputs: &[3, 5],
        room: 1,
    },
    Case {
        name: "copies and gates of 17 bits",
        circuit: &[16, 0, 1, 1, 0, 0, 0, 0, 0, 0],
        inputs: &[3],
        room: 1,
    },
    Case {
        name: "a third kind",
        circuit: &[0, 1, 1, 0, 2, 0, 1],
        inputs: &[3, 5],
        room: 1,
    },
    Case {
        name: "a left place one too far",
        circuit: &[0, 1, 1, 0, 1, 2, 1],
        inputs: &[3, 5],
        room: 1,
    },
    Case {
        name: "a right place one too far",
        circuit: &[0, 1, 1, 0, 1, 0, 2],
        inputs: &[3, 5],
        room: 1,
    },
    Case {
        name: "an input too few",
        circuit: &PRODUCT,
        inputs: &[3],
        room: 1,
    },
    Case {
        name: "an input too many",
        circuit: &PRODUCT,
        inputs: &[3, 5, 7],
        room: 1,
    },
    Case {
        name: "no room",
        circuit: &PRODUCT,
        inputs: &[3, 5],
        room: 0,
    },
    Case {
        name: "room for too many",
        circuit: &PRODUCT,
        inputs: &[3, 5],
        room: 2,
    },
    Case {
        name: "the modulus",
        circuit: &PRODUCT,
        inputs: &[3, MODULUS],
        room: 1,
    },
    Case {
        name: "no circuit before all else",
        circuit: &[0, 1, 1, 0, 2, 0, 1],
        inputs: &[MODULUS],
        room: 0,
    },
    Case {
        name: "counts before numbers",
        circuit: &PRODUCT,
        inputs: &[MODULUS],
        room: 1,
    },
];
