// The office makes a proposal (02, request m): the choices of the reading that a row tells, as the box's check reads them.
//
// A plain walk from the row's start writes its choices down as the proposal's bytes (`choosing`). At the first end with that row the bytes are checked as the
// box will check them, and are handed out only if that gives the row: so what is promised of a proposal is the check's word, and nothing need be proved of the
// choices but that they stay within what is lent. It costs the walk, and the path of the check.
#![tactic(auto)]

mod proposals;

pub use choosing::Unmade;
pub use proposals::propose_held;

// A proposal that was made: so many bytes, whose path takes so many steps.
#[derive(Clone, Copy, Debug, PartialEq, Eq)]
pub struct Proposal {
    pub bytes: usize,
    pub steps: u64,
}
