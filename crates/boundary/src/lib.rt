// No code: the calls of the C ABI as definitions, and what they promise.
#![tactic(auto)]
