#![tactic(auto)]

// Laws of lists that several crates cite, in proofs/; there is no code.
