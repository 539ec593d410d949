// Following a path (02, request m): the one path that the choices of a proposal tell is followed through the compiled rule, from node to node.
//
// A turn carries out one node (`turns`). Every turn but the last makes a step, so that the budget bounds them.
#![tactic(auto)]

mod paths;

pub use paths::follow_path;

// How following went: to the rule's end with all choices used, at this position, in so many steps; to no reading, in so many; or the steps are spent.
#[derive(Clone, Copy, Debug, PartialEq, Eq)]
pub enum Followed {
    Arrived(u32, u32),
    Missed(u32),
    Spent,
}
