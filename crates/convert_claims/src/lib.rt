// Claims about the converter, in specs/ and proofs/, and one function that holds them.
#![tactic(auto)]

ghost use Rattle.convert_claims.specs.Conversions.{ConvertsToOther, ConvertsIntoAny, ConvertsBack, EndsAlike, TellsAlike};
ghost use Rattle.convert_claims.specs.Conversions.{RefusesFirstUntaken, KindsOfBoxes, RefusedAsLoaded, RefusalLeavesBuffer};

// The claims of this crate. A claim counts where a contract holds it: without this function the
// theorems could be deleted, and nothing would fail.
pub fn promised()
    ensures { ConvertsToOther × ConvertsIntoAny × ConvertsBack × EndsAlike × TellsAlike
        × RefusesFirstUntaken × KindsOfBoxes × RefusedAsLoaded × RefusalLeavesBuffer }
{}
