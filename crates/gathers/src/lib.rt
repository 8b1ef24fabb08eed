// The bytes that a line of a script works on, put first into a buffer.
#![tactic(auto)]

mod gathers;

pub use gathers::gather;
