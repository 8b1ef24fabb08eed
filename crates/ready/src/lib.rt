// No code: lent memory that is ready for a step, and how steps follow one another.
#![tactic(auto)]
