// The state that a line of a script names, and the estimator's calls for a line: each gives its answer, and the state after it.
#![tactic(auto)]

mod calls;

pub use calls::{Done, Reply, block, enter, leave, read, start, state_in};
