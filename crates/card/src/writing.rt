// Writing a card into a new file.
ghost use Rattle.std.specs.Prelude.{◌≤◌, length};

use crate::messages::{say_no_budget, say_no_flags};
use crate::showing::show;
use cards::{CARD_BUDGET_LIMIT, CARD_NEED, write_card};
use frame::{RULE_AREA_NEED, RULE_LIMIT};
use office::{budget_at, fail, fail_at, flags_at, path_at, read_rule, say_refusal};
use std::fs;
use std::fs::{File, OpenOptions};
use std::io::{Error, Write};

// Where the arguments stand.
const RULE_FILE: usize = 2;

const CARD_FILE: usize = 3;

const FLAGS: usize = 4;

const BUDGET: usize = 5;

// One byte more than the longest rule: a rule that fills this is too long, whatever follows.
const RULE: usize = RULE_LIMIT + 1;

// Whether so many arguments ask for a card that is written.
pub(crate) fn is_count(count: usize) -> bool {
    CARD_FILE < count && count <= BUDGET + 1
}

// Writes all bytes into a file, and has them brought to the disk, since nothing is told of what fails when the file is closed.
fn write_and_sync(mut file: File, card: &[u8]) -> Result<(), Error> {
    file.write_all(card)?;
    file.sync_all()
}

// Writes bytes into a file that was made for them. If that fails, it says so, and the file is removed.
fn fill_file(rt: &HostRuntime, file: File, path: &str, card: &[u8]) -> bool {
    let written = write_and_sync(file, card);
    if let Err(why) = written {
        fail(rt, b"card: the card could not be written", why);
        let _ = fs::remove_file(rt, path);
        return false;
    }
    true
}

// Writes a card into the file that an argument names, which must not be there yet. It says whether the card is there, and if not, why.
fn save(rt: &HostRuntime, card: &[u8]) -> bool {
    let mut name = io::buffer();
    let Some(path) = path_at(rt, b"card", CARD_FILE, &mut name) else {
        return false;
    };
    let made = OpenOptions::new()
        .write(true)
        .create_new(true)
        .open(rt, path);
    match made {
        Ok(file) => fill_file(rt, file, path, card),
        Err(why) => {
            fail_at(rt, b"card", path.as_bytes(), why);
            false
        }
    }
}

// Saves the card of a rule, and shows it; or says why there is none.
fn write_rule(rt: &HostRuntime, rule: &[u8], flags: u32, budget: u32)
    requires { length rule.now ≤ 1001 }
{
    let mut area = [0u32; RULE_AREA_NEED];
    let mut card = [0u8; CARD_NEED];
    match write_card(rule, flags, budget, &mut area, &mut card) {
        Err(f) => say_refusal(rt, b"card", f, rule),
        Ok(n) => {
            if save(rt, &card[..n]) {
                show(rt, &card[..n]);
            }
        }
    }
}

// With the flags and the budget. The rule is the first line of its file, or all of it.
fn start(rt: &HostRuntime, flags: u32, budget: u32) {
    let mut buffer = [0u8; RULE];
    if let Some((_file, rule)) = read_rule(rt, b"card", RULE_FILE, &mut buffer) {
        write_rule(rt, rule, flags, budget);
    }
}

// Writes the card that the arguments ask for.
pub(crate) fn write_file(rt: &HostRuntime) {
    let Some(flags) = flags_at(rt, FLAGS) else {
        say_no_flags(rt);
        return;
    };
    let Some(budget) = budget_at(rt, BUDGET, CARD_BUDGET_LIMIT) else {
        say_no_budget(rt);
        return;
    };
    start(rt, flags, budget);
}
