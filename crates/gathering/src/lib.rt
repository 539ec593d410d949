// The readings of all starts, for a listing: one start after another, those that cannot begin passed over, their steps counted. How the readings of one start are
// noted stands in `noting`.
#![tactic(auto)]

mod walking;

pub use walking::list_starts;

// What a listing answers: the rows written and the steps, before them the start that was cut short.
#[derive(Clone, Copy, Debug, PartialEq, Eq)]
pub enum Listing {
    Complete(usize, u64),
    Full(usize, u64),
    Exhausted(u32, usize, u64),
}
