// A line of a script: what it asks for by the scripts' page.
#![tactic(auto)]

mod lines;

pub use lines::{Line, asked};
