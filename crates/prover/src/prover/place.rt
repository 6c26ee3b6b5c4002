// Where the prover stands in its layer, by how many coins of the layer's variables have fallen.
// First come the copies' variables, then those of x and of y, and in the end the two values.
ghost use Rattle.std.specs.Prelude.{◌≡◌, ◌+◌, ◌≤◌, length};
ghost use Rattle.circuits.specs.Views.{layers_seen};
ghost use Rattle.prover.specs.Provers.{IsDue, copies_of, below_of, rest_of};

use super::HonestProver;
use crate::due::Due;

impl<'a> HonestProver<'a> {
    // How many coins have fallen where x begins.
    pub(super) fn start_of_x(&self) -> usize
        ensures { result ≡ copies_of self.now }
    {
        self.rest.copies() as usize
    }

    // How many coins have fallen where y begins.
    pub(super) fn start_of_y(&self) -> usize
        ensures { result ≡ copies_of self.now + below_of self.now }
    {
        self.start_of_x() + self.layer.size_below() as usize
    }

    pub fn due(&self) -> Due
        ensures { IsDue self.now result }
    {
        let x = self.rest.copies();
        let y = x + self.layer.size_below();
        let values = y + self.layer.size_below();
        let drawn = self.drawn.len() as u32;
        if drawn < x {
            Due::Copies(x - drawn)
        } else if drawn < y {
            Due::Left(y - drawn)
        } else if drawn < values {
            Due::Right(values - drawn)
        } else {
            Due::Values
        }
    }

    // How many layers lie below this one.
    pub fn layers_below(&self) -> u32
        ensures { result ≡ length (layers_seen (rest_of self.now)) }
    {
        self.rest.count()
    }
}
