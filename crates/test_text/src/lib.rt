// What the tests that read standard input share: texts with their numbers, commands, and edits of a
// chart file. The functions have no equations: what the tests print is compared.
#![tactic(auto)]

pub mod edits;
pub mod input;
pub mod letters;
pub mod text;
