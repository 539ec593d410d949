// The failures that are told of a line that is not matched, as they are kept: the first of the greatest of one start's walk, and of all starts' walks the
// furthest failure and the closest attempt. The walks themselves are made in `failures`.
#![tactic(auto)]

mod greatest;
mod leading;

pub use greatest::{Best, Failed, blank, consider};
pub use leading::{lead, note_of, settle};
