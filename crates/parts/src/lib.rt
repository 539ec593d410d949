// Reads the parts of a sequence that are no groups, and the ends of groups, and appends a node for each to a lent area. How a group opens is read in
// `brackets`, and what stands inside one is read above.
#![tactic(auto)]

ghost use Rattle.std.specs.Prelude.{◌≡◌, ◌+◌, ◌<◌};
ghost use Rattle.parts.specs.Says.{behind_node};

mod parts;

pub use parts::{close, other};

// The byte that ends a group, as `peek` gives it.
pub const CLOSING: u32 = b')' as u32;

// What a repeat would find behind a part of a sequence.
#[derive(Clone, Copy, Debug, PartialEq, Eq)]
pub enum Before {
    // nothing that it can repeat
    Nothing,
    // an item or a group
    Repeatable,
    // a repeat
    Repeated,
}

// How far a rule has been read: the position in it, the numbers of the area that are used, and the groups opened.
#[derive(Clone, Copy, Debug, PartialEq, Eq)]
pub struct Cursor {
    pub at: usize,
    pub used: usize,
    pub opened: u32,
}

// What was read: where it ends, and the position of its last node. 0 stands for none, as it does in the nodes that name others.
#[derive(Clone, Copy, Debug, PartialEq, Eq)]
pub struct Part {
    pub cursor: Cursor,
    pub node: usize,
}

// How far a sequence has been read: where its last part ends, the position of that part, or 0 for none, and what a repeat would find behind it.
#[derive(Clone, Copy, Debug, PartialEq, Eq)]
pub struct Step {
    pub cursor: Cursor,
    pub node: usize,
    pub kind: Before,
}

impl Cursor {
    // The cursor at a position, behind a node of n numbers.
    pub fn behind(self, at: usize, n: usize) -> Cursor
        requires { self.used + n < 4294967296 }
        ensures { result ≡ behind_node self at n }
    {
        Cursor {
            at,
            used: self.used + n,
            ..self
        }
    }
    // The part that ends at a position, and whose node of n numbers stands at the cursor.
    pub fn part(self, at: usize, n: usize) -> Part
        requires { self.used + n < 4294967296 }
        ensures { result ≡ record { cursor = behind_node self at n; node = self.used } }
    {
        Part {
            cursor: self.behind(at, n),
            node: self.used,
        }
    }

    // The sequence so far, once that part is its last.
    fn step(self, at: usize, n: usize, kind: Before) -> Step
        requires { self.used + n < 4294967296 }
        ensures { result ≡ record { cursor = behind_node self at n; node = self.used; kind = kind } }
    {
        Step {
            cursor: self.behind(at, n),
            node: self.used,
            kind,
        }
    }
}
