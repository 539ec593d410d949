// Rule cards for the office: writes the card of a rule with its flags and budget, and shows a card in words.
#![tactic(auto)]

mod messages;
mod showing;
mod writing;

use office::{arg_count, is_word};

// Where the arguments stand.
const COMMAND: usize = 1;

const CARD_TO_SHOW: usize = 2;

fn main(rt: HostRuntime) {
    let count = arg_count(&rt);
    if is_word(&rt, COMMAND, b"show") && count == CARD_TO_SHOW + 1 {
        showing::show_file(&rt, CARD_TO_SHOW);
    } else if is_word(&rt, COMMAND, b"write") && writing::is_count(count) {
        writing::write_file(&rt);
    } else {
        messages::usage(&rt);
    }
}
