// The lines of a file as a page, for `readings` and for `fields`.
//
// The page has its counts first, so that the lines are read twice: once to count them, and once to show those that need a person. There is no room to hold
// a day's lines. Each line is judged as the program does that writes the page; what is shown of it is the same.
#![tactic(auto)]

mod counted;
mod job;
mod judging;
mod shown_lines;
mod shown_parts;
mod whole;

pub use job::{Job, LINE, RESULT_AREA, RULE_AREA, Table, WORK_AREA};
pub use whole::write_page;
