// No code: the compiled public calls, as their callers learn them, lead the lives that demand 3 speaks of.
#![tactic(auto)]
