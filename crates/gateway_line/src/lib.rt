// The gateway program's answers to lines that come in pieces. The rule, and the answer to one line, stand in `gateway_answers`.
#![tactic(auto)]

mod streaming;

pub use gateway_answers::{BUDGET, Compiled, prepare};
pub use streaming::{HELD_LIMIT, Progress, advance, finish};
