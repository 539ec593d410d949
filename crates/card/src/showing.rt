// Showing a card.
ghost use Rattle.std.specs.Prelude.{◌≤◌, length, IfOk};

use card_text::write_words;
use cards::{RULE_BYTES_NEED, read_card, rule_in};
use frame::RULE_AREA_NEED;
use office::{fail, flush, open, say, say_refusal};
use std::fs::File;
use std::io::{Error, ErrorKind, Read};

// What is read of a file at most. One that fills this is no card, whatever follows.
const FILE: usize = 65536;

// Writes what a card says to standard output; of what is refused it says why.
pub(crate) fn show(rt: &HostRuntime, card: &[u8]) {
    let mut area = [0u32; RULE_AREA_NEED];
    let mut rule = [0u8; RULE_BYTES_NEED];
    match read_card(card, &mut area, &mut rule) {
        Ok(held) => {
            let mut out = io::large_buffer();
            let text = &rule[..held.size];
            let n = write_words(text, held.flags, held.budget, held.groups, &mut out, 0);
            if !flush(rt, &out, n) {
                say(rt, b"card: what the card says could not be written\n");
            }
        }
        Err(f) => {
            let n = rule_in(card, &mut rule);
            say_refusal(rt, b"card", f, &rule[..n]);
        }
    }
}

// Reads a file to its end, or as much of it as there is room for, and says how many bytes that are.
fn read_content(file: &mut File, content: &mut [u8]) -> Result<usize, Error>
    ensures { IfOk result (λ n. n ≤ length content.old) }
{
    let mut have = 0;
    // nothing says that a file ends: the reads are counted
    for _ in 0..u64::MAX {
        if have == content.len() {
            return Ok(have);
        }
        let n = file.read(&mut content[have..])?;
        if n == 0 {
            return Ok(have);
        }
        have += n;
    }
    Err(Error::from(ErrorKind::TimedOut))
}

// Shows the card in the file that an argument names.
pub(crate) fn show_file(rt: &HostRuntime, argument: usize) {
    let Some(mut file) = open(rt, b"card", argument) else {
        return;
    };
    let mut content = io::large_buffer();
    match read_content(&mut file, &mut content) {
        Ok(FILE) => say(
            rt,
            b"card: the file has more than 65535 bytes, and a card at most 1064\n",
        ),
        Ok(n) => show(rt, &content[..n]),
        Err(why) => fail(rt, b"card: the card could not be read", why),
    }
}
