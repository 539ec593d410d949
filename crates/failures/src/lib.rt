// What failed on a line that is not matched: the furthest failure, the closest attempt, and which items failed where that one ended.
//
// All starts are walked plainly once, and the closest attempt's start once more. The walks are those of a match, which has shown that they reach no end
// and that the budget and the work area are enough for them. What is kept of them, and by which order, stands in `greatest`.
#![tactic(auto)]

mod marking;
mod walking;

pub use greatest::{Best, Failed};
pub use marking::find_failures;
