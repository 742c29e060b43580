// Tables of files, in specs/ and proofs/, and one function that holds them.
#![tactic(auto)]

ghost use Rattle.example_files.specs.Files.{FileExamples};
ghost use Rattle.example_files.specs.Checks.{CheckCases, BlocksExchanged};
ghost use Rattle.example_files.specs.Conversions.{ConversionCases};

// The claims of this crate. A claim counts where a contract holds it: without this function the
// theorems could be deleted, and nothing would fail.
pub fn promised()
    ensures { FileExamples × CheckCases × BlocksExchanged × ConversionCases }
{}
