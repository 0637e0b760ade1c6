// What silence means of a gate that is carried from call to call: definitions and laws; no function.
#![tactic(auto)]
