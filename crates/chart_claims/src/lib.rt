// Claims about a chart and its file, and about a rewritten table, in specs/ and proofs/, and one
// function that holds them.
#![tactic(auto)]

ghost use Rattle.chart_claims.specs.Claims.{FileHasLength, ReproducesFile, ReproducesChart, ObeysRules, RuledIsLoaded, ShowsTheBox, StaysInRange};
ghost use Rattle.chart_claims.specs.Exchanged.{ExchangeRefused, OutOfOrderRefused, OthersAddNothing};
ghost use Rattle.chart_claims.specs.Rewritten.{RewrittenIsRuled, RewrittenByPlaces, RewrittenExactly, RewrittenOnce};
ghost use Rattle.chart_claims.specs.Bounds.{ExactRoom, LastBoxShown, EndsExchanged, LoadsWithinBounds};

// The claims of this crate. A claim counts where a contract holds it: without this function the
// theorems could be deleted, and nothing would fail.
pub fn promised()
    ensures { FileHasLength × ReproducesFile × ReproducesChart × ObeysRules × RuledIsLoaded
        × ShowsTheBox × StaysInRange
        × ExchangeRefused × OutOfOrderRefused × OthersAddNothing
        × RewrittenIsRuled × RewrittenByPlaces × RewrittenExactly × RewrittenOnce
        × ExactRoom × LastBoxShown × EndsExchanged × LoadsWithinBounds }
{}
