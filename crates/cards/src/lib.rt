// Rule cards: a rule with its flags and budget as bytes that can be kept and sent, and read back.
//
// A card is written only of a rule that compiles, and read only if every byte of it is the one that would be written: so one rule with its flags and
// budget has one card, and whether two cards say the same is told by comparing their bytes. Nothing of a card is trusted: its records are cut off and counted
// before any length in it is used (`card_records`), its rule is compiled again, and the number of groups that it says is compared with what compiling counts.
//
// Reading goes over the rule's bytes twice, once they are found to be a card's: once into an array of its own, since a refusal leaves what was lent as it was,
// and once into what was lent.
#![tactic(auto)]

mod reading;
mod ruling;
mod writing;

pub use reading::{Card, RULE_BYTES_NEED, read_card, rule_in};
pub use ruling::CARD_BUDGET_LIMIT;
pub use writing::{CARD_NEED, write_card};
