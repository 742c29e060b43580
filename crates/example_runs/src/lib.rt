// Tables of runs, in specs/ and proofs/, and one function that holds them.
#![tactic(auto)]

ghost use Rattle.example_runs.specs.Runs.{PaperCases, NamingCases, HiddenCases};
ghost use Rattle.example_runs.specs.Editions.{EditionCases};
ghost use Rattle.example_runs.specs.Rewriting.{RewritingCases};
ghost use Rattle.example_runs.specs.Keeping.{KeepingCases};

// The claims of this crate. A claim counts where a contract holds it: without this function the
// theorems could be deleted, and nothing would fail.
pub fn promised()
    ensures { PaperCases × NamingCases × HiddenCases × EditionCases × RewritingCases × KeepingCases }
{}
