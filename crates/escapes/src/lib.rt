// Reads what stands for a byte or a set of bytes: the escapes, in a class and outside, and named sets.
#![tactic(auto)]

use charset::Named;

mod escapes;
mod names;

pub use escapes::{class_escape_at, common_at, octal_at};
pub use names::posix_at;

// A member of a class, or one end of a range.
#[derive(Clone, Copy, Debug, PartialEq, Eq)]
pub enum Member {
    Single(u8),
    Range(u8, u8),
    Set(Named),
    NotSet(Named),
}
