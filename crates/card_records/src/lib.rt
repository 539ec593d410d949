// The records of a rule card, without the rule that is in them: bytes are cut into records, whose order, number and padding are tested (`find_card`), and the
// bytes of a card are written (`put_card`).
//
// Each byte of a card that is written is a function of its position, in as many stores as the card has bytes. Of bytes that are read nothing is trusted: they are
// gone over once for the records, which are counted before any length in them is used, and once for the padding.
#![tactic(auto)]

mod bytes;
mod scanning;

pub use bytes::put_card;
pub use scanning::find_card;
