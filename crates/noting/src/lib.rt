// The readings of one start, for a listing: the ends of its walk in their order, each written as a row when it is met for the first time.
//
// Half of the work area is the machine's, and in the other half stands the index by which a reading is known to be new.
#![tactic(auto)]

mod noting;
mod pieces;
mod walking;

pub use pieces::spans_of;
pub use walking::{Ends, list_start};
