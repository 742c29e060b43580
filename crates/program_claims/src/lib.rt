// Claims about the run program, in specs/ and proofs/, and one function that holds them.
#![tactic(auto)]

ghost use Rattle.program_claims.specs.LineClaims.{LinesEnd, LinesApart};
ghost use Rattle.program_claims.specs.SessionClaims.{WritesTranscript, AnswersFirst, BeginsTranscript, WritesEnd, FirstBytes};

// The claims of this crate. A claim counts where a contract holds it: without this function the
// theorems could be deleted, and nothing would fail.
pub fn promised()
    ensures { LinesEnd × LinesApart × WritesTranscript × AnswersFirst × BeginsTranscript
        × WritesEnd × FirstBytes }
{}
