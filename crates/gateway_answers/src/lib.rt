// The gateway program's rule, and its answer to one line.
#![tactic(auto)]

mod answering;
mod rules;

pub use answering::{BUDGET, LINE_LIMIT, answer};
pub use reader::Compiled;
pub use rules::prepare;
