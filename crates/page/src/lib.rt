// The scripts' page: the first words of its lines, and the fields that follow each.
// `page`: the operations and their fields. `limits`: the page's bounds.
#![tactic(auto)]

mod limits;
mod page;

pub use limits::{
    MOST_COUNTS, MOST_HISTORY, MOST_IDS, MOST_PENDING, MOST_RECENT, MOST_SCRIPT, MOST_SHORT,
    MOST_WIDE_PENDING, MOST_WIDE_RECENT,
};
pub use page::{Field, Fields, Operation, allowed, fields_of, is};
