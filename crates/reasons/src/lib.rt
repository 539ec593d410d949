// What is said of the items of a rule that failed: their own text, repeats and all, and which of them are told.
//
// An item is known by its place, where its text begins. Where it ends is read off the rule again: that is done for the few items of a line
// that does not fit, so that nothing of it need be kept in the compiled rule.
#![tactic(auto)]

mod items;
mod marks;

pub use items::item_end;
pub use marks::{next_new, underline};
