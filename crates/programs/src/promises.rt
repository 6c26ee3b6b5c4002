// What is proved of whole runs of the programs, line by line.
// Each function's contract is what it names; there is nothing to compute.
ghost use Rattle.programs.specs.Theorems.{BelievedOnlyWhere, HouseSaysHonest, RightOutputsAreBelieved, HouseConvincesJudge};

// `judge` prints `believed` only where the argument is accepted, with the coins of DICE and the answers in the house's lines.
pub fn judge_stands()
    ensures { BelievedOnlyWhere }
{}

// `house` says what the honest prover answers along the coins.
pub fn house_stands()
    ensures { HouseSaysHonest }
{}

// Right outputs are believed: with the honest answers for lines, and where the two programs talk with each other.
pub fn right_outputs_stand()
    ensures answered { RightOutputsAreBelieved }
    ensures talked { HouseConvincesJudge }
{}
