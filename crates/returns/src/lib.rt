// What frames owe their callers: the statements are in specs/, and the crate `theorems` has each on a contract.
#![tactic(auto)]
