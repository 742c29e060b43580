// Claims about the rewriter, in specs/ and proofs/, and one function that holds them.
#![tactic(auto)]

ghost use Rattle.rewrite_claims.specs.Rewriting.{RewritesHeld, FewerSteps, RewritesWithinBounds};

// The claims of this crate. A claim counts where a contract holds it: without this function the
// theorems could be deleted, and nothing would fail.
pub fn promised()
    ensures { RewritesHeld × FewerSteps × RewritesWithinBounds }
{}
