// Definitions and laws, with no function of its own.
#![tactic(auto)]
