// The choices of a reading that a row tells (02, request m), written down as the bytes of a proposal.
//
// The rule is walked plainly from the row's start (`plain`) to the first end with that row (`walk_to`), and what each node chooses is written down beside the
// walk (`log`, `choices`). Nothing is promised of the bytes but that they stay within what is lent: `proposing` has them checked before it hands them out.
//
// It costs the walk of a match from that one start, with each item looked at twice, and a byte of the log and one of the proposal for each choice on the
// path.
#![tactic(auto)]

mod choices;
mod log;
mod walking;

pub use walking::walk_to;

// Why no proposal is made: the walk needs more steps than the budget has, or the bytes or the log do not fit into what is lent, or no reading was found
// that a check can follow.
#[derive(Clone, Copy, Debug, PartialEq, Eq)]
pub enum Unmade {
    Exhausted,
    NoRoom,
    Unfound,
}
