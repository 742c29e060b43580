// The charts of the examples and the cases of their tables, in specs/; there is no code.
#![tactic(auto)]
