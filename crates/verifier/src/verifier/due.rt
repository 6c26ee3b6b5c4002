// What is due where the verifier stands: an answer for a variable, the two values, or no answer any more.
// All of it follows from how many coins of the layer's variables have fallen.
ghost use Rattle.std.specs.Prelude.{◌≡◌, ◌+◌, ◌<◌, ◌≤◌, length, ◌==◌};
ghost use Rattle.verdicts.specs.Machine.{variables_of, variable_due, size_under};
ghost use Rattle.verifier.specs.Meaning.{stand_of};

use super::Verifier;

impl<'a> Verifier<'a> {
    // Whether no layer is left, so that the claim is about the inputs.
    pub fn at_inputs(&self) -> bool
        ensures { result ≡ (length (stand_of self.now).layers == 0) }
    {
        self.layers.count() == 0
    }

    // How many variables each of x and y has.
    pub(super) fn size_below(&self) -> usize
        requires { 0 < length (stand_of self.now).layers }
        ensures value { result ≡ size_under (stand_of self.now) }
        ensures limit { (stand_of self.now).copies + result ≤ 16 }
    {
        self.layers.rest().top_size() as usize
    }

    // How many variables the layer's sum has.
    pub fn variables(&self) -> usize
        ensures value { result ≡ variables_of (stand_of self.now) }
        ensures limit { result ≤ 32 }
    {
        if self.at_inputs() {
            0
        } else {
            self.layers.copies() as usize + 2 * self.size_below()
        }
    }

    // Whether the answer that is due is that of a variable.
    pub fn variable_due(&self) -> bool
        ensures { result ≡ variable_due (stand_of self.now) }
    {
        self.drawn.len() < self.variables()
    }
}
