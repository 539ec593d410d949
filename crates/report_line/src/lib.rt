// A line's part of the office report, as text: the line with its readings under it, or with the reason why it has none.
//
// What is written goes through the buffer of `office`, so that a line of any length takes no more room. The sentence that says why a line does not fit
// is the page's too.
#![tactic(auto)]

mod display;
mod labels;
mod sentence;
mod unmatched;

pub use display::put_line;
pub use labels::margin_for;
pub use sentence::put_sentence;
pub use unmatched::{RULE, put_reason};
