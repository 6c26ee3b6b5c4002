// What is proved of judging as a whole, each theorem as the contract of a function that does nothing.
// Without a proof of its statement such a function fails the check.
ghost use Rattle.verdicts.specs.Examples.{Examples};
ghost use Rattle.verdicts.specs.Theorems.{MachineBelieves, StopsFirst};

// With as many coins as it takes, the machine believes exactly where the argument is accepted.
pub fn machine_believes()
    ensures { MachineBelieves }
{}

// The verdict is given where for the first time something isn't as it has to be.
pub fn stops_first()
    ensures { StopsFirst }
{}

// The worked examples.
pub fn examples_stand()
    ensures { Examples }
{}
