// A line of the table of fields: the word for a line, asked of a rule that stands compiled, and the row of its match, by which the fields are looked up.
#![tactic(auto)]

mod asking;

pub use asking::ask;
