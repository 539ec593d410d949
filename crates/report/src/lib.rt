// What a report shows of a line: its bytes in windows of a fixed width, and marks under what a reading or a group took.
#![tactic(auto)]

mod marks;
mod text;

pub use marks::{mark, touches};
pub use text::{is_odd, is_printed, show};

// The columns of a window.
pub const WIDTH: usize = 64;
