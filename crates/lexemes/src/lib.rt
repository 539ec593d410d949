// Reads what a rule has below its items: bytes, numbers, quantifiers, names of groups, `\R`, and the blanks that the flag `x` has skipped.
#![tactic(auto)]

mod ascii;
mod blanks;
mod breaks;
mod called;
mod numbers;
mod quantifiers;

pub use ascii::{CARET, CLOSING_BRACE, CLOSING_BRACKET, COLON, END, LESS, MINUS, OPENING_BRACE};
pub use blanks::behind_blanks;
pub use breaks::breaks_line;
pub use called::{called_at, calls_by_name, name_at};
pub use numbers::{digit_at, number_at, peek};
pub use quantifiers::quantifier_at;

// A group's name, told by where it stands in the rule: its first byte's position and its length.
#[derive(Clone, Copy, Debug, PartialEq, Eq)]
pub struct Name {
    pub from: usize,
    pub len: usize,
}
