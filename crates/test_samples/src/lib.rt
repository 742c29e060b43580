// What the tests draw: random charts that obey the rules, damage to their files, and arguments of
// calls. The functions have no equations: what comes of the draws is counted and compared by
// `test_cases`.
#![tactic(auto)]

pub mod arguments;
pub mod charts;
pub mod damage;
pub mod files;
pub mod random;
