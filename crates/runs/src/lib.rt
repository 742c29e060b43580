// Whole runs on any flowchart, in specs/ and proofs/; there is no code.
#![tactic(auto)]
