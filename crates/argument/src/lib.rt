// The argument has no code of its own. Its functions carry what is proved of it, as what they ensure.
#![tactic(auto)]

ghost use Rattle.argument.specs.Promise.{Main};
ghost use Rattle.argument.specs.Examples.{Examples};
ghost use Rattle.argument.specs.Instances.{Instances};

// Complete, Sound and OnlyMessages stand.
pub fn main_stands()
    ensures { Main }
{}

// So does the worked example.
pub fn examples_stand()
    ensures { Examples }
{}

// What the main promise asks can be met, and its count is reached.
pub fn instances_stand()
    ensures { Instances }
{}
