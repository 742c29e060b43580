// What refuses a begin, an advance, a write back and a rewriting, in order. The refusals of the
// other calls are one test each, and load's file has its own checks.
#![tactic(auto)]

ghost use Rattle.std.specs.Prelude.{◌≡◌};
ghost use Rattle.calls.specs.Calls.{begin, advance, write_back, rewrite, at_rest, check};

use block::{Reason, Refusal};
use format::Header;

// What the refusals look at of a runner: the header of the chart held, whether a run is under way,
// the least amount by which it may be advanced, and whether there is an ended run.
// Kept: flags, since `check` answers of any standing, also of one that no runner has.
#[derive(Clone, Copy, Debug, PartialEq, Eq)]
pub struct Standing {
    pub header: Header,
    pub running: bool,
    pub least: u32,
    pub ended: bool,
}

// What a begin and a rewriting ask first: a chart, and no run under way.
fn at_rest(standing: Standing) -> Result<(), Refusal>
    ensures { result ≡ at_rest standing (Ok tt) }
{
    if !format::in_range(standing.header) {
        return Err(Reason::NoChart.into());
    }
    if standing.running {
        return Err(Reason::UnderWay.into());
    }
    Ok(())
}

// The verdict on a begin. Kept: four arguments, which the call itself takes.
#[tactic(auto, using(crate::proofs::Refusals::tells_mode, crate::proofs::Refusals::tells_count, crate::proofs::Refusals::tells_allowed, crate::proofs::Refusals::tells_limit, crate::proofs::Refusals::tells_done))]
pub fn check_begin(
    standing: Standing,
    mode: u32,
    inputs: &[u32],
    allowed: u32,
    limit: u32,
) -> Result<(), Refusal>
    ensures { result ≡ check (begin mode inputs.now allowed limit) standing }
{
    at_rest(standing)?;
    if 2 < mode {
        return Err(Reason::Mode.into());
    }
    let k = standing.header.inputs;
    if inputs.len() != usize::from(k) {
        return Err(Reason::Inputs.into());
    }
    if (allowed >> k) != 0 {
        return Err(Reason::Allowed.into());
    }
    if 65535 < limit {
        return Err(Reason::Limit.into());
    }
    Ok(())
}

// The verdict on an advance by m.
pub fn check_advance(standing: Standing, m: u32) -> Result<(), Refusal>
    ensures { result ≡ check (advance m) standing }
{
    if !standing.running {
        return Err(Reason::NoRun.into());
    }
    if m < standing.least {
        return Err(Reason::Amount.into());
    }
    Ok(())
}

// The verdict on a write back into a buffer, of which only the length is looked at.
pub fn check_write_back(standing: Standing, buffer: &[u8]) -> Result<(), Refusal>
    ensures { result ≡ check (write_back buffer.now) standing }
{
    if !format::in_range(standing.header) {
        return Err(Reason::NoChart.into());
    }
    if buffer.len() < chart::file_length(standing.header) {
        return Err(Reason::Room.into());
    }
    Ok(())
}

// The verdict on a rewriting of the chart held.
#[tactic(auto, using(crate::proofs::Refusals::tells_first, crate::proofs::Refusals::tells_second))]
pub fn check_rewrite(standing: Standing) -> Result<(), Refusal>
    ensures { result ≡ check rewrite standing }
{
    at_rest(standing)?;
    if standing.header.edition != 2 {
        return Err(Reason::Edition.into());
    }
    Ok(())
}
