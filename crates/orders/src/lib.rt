// No code: in which order entries and leaves may come, what undoes what, and blocks across a gap.
#![tactic(auto)]
