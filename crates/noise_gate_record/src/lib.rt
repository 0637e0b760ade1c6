// What the record of a block says: laws only.
#![tactic(auto)]
