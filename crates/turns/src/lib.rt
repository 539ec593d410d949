// One turn of following a path (02, request m): the node that the path has come to is carried out, by the choices that were sent.
//
// Nothing is ever gone back to, so that registers are enough and no frame is pushed. A turn (`take_turn`) costs the same whatever the subject; only a reference
// looks at its bytes, and an alternation at as many branches as the number that was sent.
#![tactic(auto)]

mod items;
mod turns;

pub use turns::take_turn;

// What a turn leads to: in a step and so many more to another node and position, with so many choices used.
#[derive(Clone, Copy, Debug, PartialEq, Eq)]
pub struct Step {
    pub more: u32,
    pub pc: u32,
    pub at: u32,
    pub read: usize,
}

// A turn that leads no further, after so many steps.
#[derive(Clone, Copy, Debug, PartialEq, Eq)]
pub struct Lost {
    pub steps: u32,
}
