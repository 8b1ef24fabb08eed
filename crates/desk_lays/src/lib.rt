// What a line of a script does to the lent memory itself.
#![tactic(auto)]

mod lays;

pub use lays::lay;
