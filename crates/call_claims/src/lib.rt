// Claims about the calls of the runner, in specs/ and proofs/, and one function that holds them.
#![tactic(auto)]

ghost use Rattle.call_claims.specs.Demand3.{Demand3};
ghost use Rattle.call_claims.specs.Parameters.{HalvesByParameters};
ghost use Rattle.call_claims.specs.OneFile.{OneFile};
ghost use Rattle.call_claims.specs.Runs.{RefusalChangesNothing, AdvancesJoin, CountsBoxes, LimitEnds, OneAdvanceEnds, TellsWholeRun, WithinLimit, Cleared};
ghost use Rattle.call_claims.specs.Charts.{HeldObeys, RunsInRange, BeginsInMode, EndsInRange, LoadedIsWritten, WrittenIsLoaded};
ghost use Rattle.call_claims.specs.Sets.{MarksWithheld, NamesWithheld, SurveillanceNames, OthersNameNone};
ghost use Rattle.call_claims.specs.HighWater.{HighWaterTells, HighWaterAnswers, HighWaterEnds};
ghost use Rattle.call_claims.specs.Distinct.{RepliesDistinct};
ghost use Rattle.call_claims.specs.Bounds.{AnswersAtTheLimit, RunsWithinBounds, WrittenIntoExactRoom, HeldWithinBounds, StatesWithinBounds, NamesWithinBounds};

// The claims of this crate. A claim counts where a contract holds it: without this function the
// theorems could be deleted, and nothing would fail.
pub fn promised()
    ensures { Demand3 × HalvesByParameters × OneFile × RefusalChangesNothing × AdvancesJoin
        × CountsBoxes × LimitEnds × OneAdvanceEnds × TellsWholeRun × WithinLimit × Cleared
        × HeldObeys × RunsInRange × BeginsInMode × EndsInRange × LoadedIsWritten × WrittenIsLoaded × RepliesDistinct
        × MarksWithheld × NamesWithheld × SurveillanceNames × OthersNameNone × HighWaterTells × HighWaterAnswers × HighWaterEnds
        × AnswersAtTheLimit × RunsWithinBounds × WrittenIntoExactRoom × HeldWithinBounds × StatesWithinBounds × NamesWithinBounds }
{}
