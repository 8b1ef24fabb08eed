// No code: what the counts mean in the whole life of a caller, whatever is called between, and for anything that meets the calls' contracts.
#![tactic(auto)]
