// The run program's lines, parsed.
#![tactic(auto)]

mod parsing;

pub use parsing::{Numbers, parse};
