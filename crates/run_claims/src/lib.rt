// Claims about runs on any flowchart, in specs/ and proofs/, and one function that holds them.
#![tactic(auto)]

ghost use Rattle.run_claims.specs.Secrecy.{RunsAreSecret, RunsKeepPace};
ghost use Rattle.run_claims.specs.Sets.{EmptyWhereUnmarked, SetsAreUnions, UnionAndKept, KeepsOneInput, OneArithmetic, SetAsRuled, SetsOnlyName};
ghost use Rattle.run_claims.specs.Boxes.{NoOperationStops};
ghost use Rattle.run_claims.specs.Editions.{OthersAlike, BoxesAlike, SecondSaturates};

// The claims of this crate. A claim counts where a contract holds it: without this function the
// theorems could be deleted, and nothing would fail.
pub fn promised()
    ensures { RunsAreSecret × RunsKeepPace
        × EmptyWhereUnmarked × SetsAreUnions × UnionAndKept × KeepsOneInput × OneArithmetic × SetAsRuled × SetsOnlyName
        × NoOperationStops × OthersAlike × BoxesAlike × SecondSaturates }
{}
