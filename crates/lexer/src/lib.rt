// Reads single items of a rule: bytes, classes, assertions and references. Nothing here looks inside a group.
#![tactic(auto)]

use lexemes::Name;
use syntax::Assertion;

mod items;
mod references;

pub use items::item_at;

// An item that is no group.
#[derive(Clone, Copy, Debug, PartialEq, Eq)]
pub enum Token {
    // a byte item; the words that hold its class are written beside it
    Byte,
    Assert(Assertion),
    // to the group of a number, 0 for one that no rule has
    Reference(u32),
    // to a group by its name, since it may be opened further on
    Called(Name),
}
