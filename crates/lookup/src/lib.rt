// The field lookup: what a named group took of a line, found by the name in a name index and by the group's span in an answer's row.
//
// Nothing that is handed in is trusted: with an index or a row that no call wrote, a field still is a part of the line, the standing text or
// nothing. So the row is tested against the line before a part is taken, and no span can lead out of it. Each entry of the index and each pair of
// the row is looked at once at most.
#![tactic(auto)]

mod fields;
mod names;
mod rows;

pub use fields::{field, find};

// Where a field is.
#[derive(Clone, Copy, Debug, PartialEq, Eq)]
pub enum Found {
    // the part of the line that the group took, from one position to another
    Taken(usize, usize),
    // the group is not set: the whole standing text
    Standing,
    // no such field, or the line did not match: the standing text's empty beginning
    Nothing,
}
