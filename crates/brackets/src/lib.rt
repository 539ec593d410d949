// Reads the openings of groups: what a group is, how deep it nests, and its name, which is written into a table (`opening_at`). No node is written
// for an opening.
#![tactic(auto)]

use syntax::Form;

mod openings;

pub use openings::opening_at;

// Bytes that a rule gives a meaning, as `peek` gives them.
const QUESTION: u32 = b'?' as u32;

const GREATER: u32 = b'>' as u32;

const EQUALS: u32 = b'=' as u32;

const EXCLAMATION: u32 = b'!' as u32;

// The first bytes of a group.
#[derive(Clone, Copy, Debug, PartialEq, Eq)]
enum Bracket {
    // of one that captures and has a name: where the name begins
    Named { start: usize },
    // of one that captures and has none: where its inside begins
    Captures { start: usize },
    // of any other: where its inside begins, and its form
    Begins { start: usize, form: Form },
}

// A group's opening: where its inside begins, the groups then opened, and its form.
#[derive(Clone, Copy, Debug, PartialEq, Eq)]
pub struct Opening {
    pub start: usize,
    pub opened: u32,
    pub form: Form,
}
