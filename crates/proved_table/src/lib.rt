// Document 01's proved table, with no function of its own.
#![tactic(auto)]
