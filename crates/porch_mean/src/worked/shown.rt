//! What `putchar`, `puts` and `printf` show and give.

ghost use Rattle.porch_mean.specs.worked.Shown.{ShowsEachConversion, ShowsTheLowByte, ShowsALine, ShowsZeros, ShowsNothingOfABadText, ArgumentsComeFirst, UsesArgumentsAgain};

/// Numbers, bytes and texts as they are shown, and how many bytes they take.
#[tactic(auto, unfolding(crate::proofs::Runs::runs_compute))]
pub fn bytes_are_shown()
    ensures conversions { ShowsEachConversion }
    ensures low_byte { ShowsTheLowByte }
    ensures line { ShowsALine }
    ensures zeros { ShowsZeros }
{}

/// All arguments come before the output, and a text that has no end shows nothing.
#[tactic(auto, unfolding(crate::proofs::Runs::runs_compute))]
pub fn arguments_come_first()
    ensures bad_text { ShowsNothingOfABadText }
    ensures first { ArgumentsComeFirst }
    ensures again { UsesArgumentsAgain }
{}
