// A row of the table of fields: its word, and its fields, looked up in a line and written into a lent buffer part by part.
#![tactic(auto)]

mod parts;
mod words;

pub use parts::{PART_ROOM, Place, write_part};
pub use words::{OPENING_ROOM, Word, open_row};
