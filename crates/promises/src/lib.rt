// What holds of every stage, a page each: statements and their proofs; no function.
#![tactic(auto)]
