// What is refused, alone and together with something else: the first refusal that applies counts.
// All of it over the circuit of one product.
use crate::table::{HONEST_PRODUCT, MODULUS, PRODUCT_ANSWERS, row};
use judging::call::Transcript;
use std::io;

// The product with the honest answers.
fn product<'a>(
    rt: &HostRuntime,
    name: &str,
    inputs: &'a [u32],
    claimed: &'a [u32],
    coins: &'a [u32],
) -> io::Result<()> {
    let transcript = Transcript {
        inputs,
        claimed,
        coins,
        ..HONEST_PRODUCT
    };
    row(rt, name, transcript)
}

// The second place of the one gate is one that is not there.
fn no_circuit(rt: &HostRuntime, name: &str, inputs: &[u32]) -> io::Result<()> {
    let transcript = Transcript {
        circuit: &[0, 1, 1, 0, 1, 0, 2],
        inputs,
        ..HONEST_PRODUCT
    };
    row(rt, name, transcript)
}

fn nine_numbers(rt: &HostRuntime) -> io::Result<()> {
    let messages = &PRODUCT_ANSWERS[0..9];
    let honest = HONEST_PRODUCT;
    row(rt, "nine numbers", Transcript { messages, ..honest })
}

pub fn counts(rt: &HostRuntime) -> io::Result<()> {
    let coins = HONEST_PRODUCT.coins;
    no_circuit(rt, "no circuit", &[3, 5])?;
    no_circuit(rt, "no circuit and too few inputs", &[3])?;
    product(rt, "too few inputs", &[3], &[15], coins)?;
    product(rt, "too many outputs", &[3, 5], &[15, 0], coins)?;
    nine_numbers(rt)?;
    product(rt, "too few coins", &[3, 5], &[15], &[2, 4])?;
    product(rt, "too many coins", &[3, 5], &[15], &[2, 4, 3, 1])?;
    product(
        rt,
        "too few coins and one too large",
        &[3, 5],
        &[15],
        &[MODULUS, 4],
    )
}

pub fn numbers(rt: &HostRuntime) -> io::Result<()> {
    let coins = HONEST_PRODUCT.coins;
    product(rt, "an input too large", &[MODULUS, 5], &[15], coins)?;
    product(rt, "an output too large", &[3, 5], &[MODULUS + 15], coins)?;
    product(rt, "a coin too large", &[3, 5], &[15], &[2, 4, MODULUS])?;
    product(rt, "the largest coin", &[3, 5], &[15], &[2, 4, MODULUS - 1])?;
    product(
        rt,
        "a coin too large and a wrong output",
        &[3, 5],
        &[16],
        &[2, MODULUS, 3],
    )
}

// The number 0 as 2^31 - 1, which is another word for it.
pub fn unreduced(rt: &HostRuntime) -> io::Result<()> {
    let mut answers = PRODUCT_ANSWERS;
    answers[1] = MODULUS;
    let messages = &answers;
    let honest = HONEST_PRODUCT;
    row(
        rt,
        "a number of an answer too large",
        Transcript { messages, ..honest },
    )
}

// Two refusals at once, the one that counts in an earlier argument and in a later one.
pub fn two_at_once(rt: &HostRuntime) -> io::Result<()> {
    product(
        rt,
        "an input too large and too few coins",
        &[MODULUS, 5],
        &[15],
        &[2, 4],
    )?;
    product(
        rt,
        "too few inputs and a coin too large",
        &[3],
        &[15],
        &[2, 4, MODULUS],
    )?;
    product(
        rt,
        "an input too large and a wrong output",
        &[MODULUS, 5],
        &[16],
        HONEST_PRODUCT.coins,
    )
}
