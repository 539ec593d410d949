// What the office programs share: what they are started with, files and their lines, a buffer for what they write, what they count, messages, and why a
// rule or a card is refused.
#![tactic(auto)]

mod arguments;
mod counts;
mod files;
mod lines;
mod messages;
mod output;
mod refusals;

pub use arguments::{arg, arg_count, asks_for_page, budget_at, decimal, flags, flags_at, is_word};
pub use counts::{Counts, count};
pub use files::{open, path_at, read_rule};
pub use lines::{CutShort, Lines, PIECE};
pub use messages::{fail, fail_at, report_progress, say};
pub use output::{CLOSED, ROOM, Told, flush, put, put_number};
pub use refusals::say_refusal;
