// What does not hold, and instances of claims, in specs/ and proofs/, and one function that holds
// them.
#![tactic(auto)]

ghost use Rattle.example_claims.specs.Refuted.{BareIsNotSecret, AnotherModeIsTold, AnotherLimitIsTold, BareAnswersMore, SmallerLimitAnswersLess};
ghost use Rattle.example_claims.specs.Refuted.{AdvancesPartAtTheEnd, NoLoadDuringARun, AnotherLoadIsTold, HighWaterNamesNone, SurveillanceNamesSome};
ghost use Rattle.example_claims.specs.Refuted.{HighWaterAdvancesPart, HighWaterSumEndsNothing, HighWaterCountsNoBoxes, SurveillanceTellsCounts, WrittenBackIsTold, EditionsEndApart};
ghost use Rattle.example_claims.specs.Refuted.{RewritingIsTold, RewritingBetweenIsTold, GuardedMayLose, DrawnDoNotCount};
ghost use Rattle.example_claims.specs.Witnesses.{SecrecyIsMet, NoticeIsTold, SecondEditionIsMet, ChoiceIsMet, CountsAreHidden, AdvancesAreWhole, AnsweringIsMet};
ghost use Rattle.example_claims.specs.Witnesses.{ConversionIsMet, RewritingIsMet, RewritingInOrder};

// The claims of this crate. A claim counts where a contract holds it: without this function the
// theorems could be deleted, and nothing would fail.
pub fn promised()
    ensures { BareIsNotSecret × AnotherModeIsTold × AnotherLimitIsTold × BareAnswersMore × SmallerLimitAnswersLess × AdvancesPartAtTheEnd × NoLoadDuringARun × AnotherLoadIsTold × HighWaterNamesNone × SurveillanceNamesSome × HighWaterAdvancesPart × HighWaterSumEndsNothing × HighWaterCountsNoBoxes × SurveillanceTellsCounts × WrittenBackIsTold × EditionsEndApart × RewritingIsTold × RewritingBetweenIsTold × GuardedMayLose × DrawnDoNotCount × SecrecyIsMet × NoticeIsTold × SecondEditionIsMet × ChoiceIsMet × CountsAreHidden × AdvancesAreWhole × AnsweringIsMet × ConversionIsMet × RewritingIsMet × RewritingInOrder }
{}
