// One search, for successive matches: the first match from a position on, with the empty end barred there or not.
//
// Only the first try of a search can be barred. So that try has a loop of its own, which falls back from a barred end, and the starts behind it are sought as a
// match seeks them, and may be passed over. A search tells an outcome and writes no row.
#![tactic(auto)]

mod searching;
mod tries;

pub use searching::search;
