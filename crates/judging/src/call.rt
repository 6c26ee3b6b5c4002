// The words of a call that judges: a circuit and its inputs, the claimed outputs, and the answers and coins of an argument.
// They are lent together, and nothing is said of them before they are checked.

#[derive(Clone, Copy)]
pub struct Transcript<'a> {
    pub circuit: &'a [u32],
    pub inputs: &'a [u32],
    pub claimed: &'a [u32],
    pub messages: &'a [u32],
    pub coins: &'a [u32],
}
