// Writes and reads rule cards, and says what came of each.
//
// A line of input has six words: 0 to write a card or 1 to read one, the flags, the budget and the lengths of the rule area and of the area that is written, in
// decimal; and the bytes of the rule or of the card, in hex. Flags and budget are for a rule that is written.
// A line of output is 'written', the card's length and its bytes; 'read', the rule's length, the flags, the budget, the number of groups and the rule's
// bytes; or 'refused', the refusal's number, 'at' and its place. All of them are in decimal.
#![tactic(auto)]

use cards::{CARD_NEED, read_card, write_card};
use frame::RULE_AREA_NEED;
use vectors::{cut, decode, put, put_refused};

// What is lent at most: one more than is needed.
const RULE_AREA: usize = RULE_AREA_NEED + 1;

const AREA: usize = CARD_NEED + 1;

// Room for the longest bytes that are handed in, among them cards longer than any that is written.
const ROOM: usize = 2 * CARD_NEED;

// Greater flags and budgets are held at this.
const MOST: u32 = 4294967295;

// What a line asks for.
#[derive(Clone, Copy, Debug, PartialEq, Eq)]
enum Call {
    Write,
    Read,
}

impl From<u32> for Call {
    fn from(kind: u32) -> Call {
        match kind {
            0 => Call::Write,
            _ => Call::Read,
        }
    }
}

// The first bytes of an area, so many of them, at the end of a line.
fn put_first(rt: &HostRuntime, area: &[u8], n: usize) {
    for b in &area[..n.min(area.len())] {
        put(rt, " ");
        put(rt, *b);
    }
    put(rt, "\n");
}

// What is said of a rule that is to be written, or of a card that is to be read.
fn tell(
    rt: &HostRuntime,
    call: Call,
    bytes: &[u8],
    flags: u32,
    budget: u32,
    rule_area: &mut [u32],
    area: &mut [u8],
) {
    match call {
        Call::Write => match write_card(bytes, flags, budget, rule_area, area) {
            Ok(n) => {
                put(rt, "written ");
                put(rt, n);
                put_first(rt, area, n);
            }
            Err(f) => put_refused(rt, f),
        },
        Call::Read => match read_card(bytes, rule_area, area) {
            Ok(card) => {
                put(rt, "read ");
                put(rt, card.size);
                put(rt, " ");
                put(rt, card.flags);
                put(rt, " ");
                put(rt, card.budget);
                put(rt, " ");
                put(rt, card.groups);
                put_first(rt, area, card.size);
            }
            Err(f) => put_refused(rt, f),
        },
    }
}

// What a line asks for.
fn tell_line(rt: &HostRuntime, line: &[u8]) {
    let mut rule_area = [7u32; RULE_AREA];
    let mut area = [7u8; AREA];
    let mut bytes = [0u8; ROOM];
    let (kind, line) = cut(line, b' ');
    let (flags, line) = cut(line, b' ');
    let (budget, line) = cut(line, b' ');
    let (rule_need, line) = cut(line, b' ');
    let (need, digits) = cut(line, b' ');
    let a = vectors::number(rule_need, RULE_AREA as u32) as usize;
    let b = vectors::number(need, AREA as u32) as usize;
    let n = decode(digits, &mut bytes);
    tell(
        rt,
        Call::from(vectors::number(kind, MOST)),
        &bytes[..n],
        vectors::number(flags, MOST),
        vectors::number(budget, MOST),
        &mut rule_area[..a],
        &mut area[..b],
    );
}

fn tell_lines(rt: &HostRuntime, input: &[u8]) {
    let mut rest = input;
    while !rest.is_empty() {
        let (line, behind) = cut(rest, b'\n');
        tell_line(rt, line);
        rest = behind;
    }
}

fn main(rt: HostRuntime) {
    let mut buffer = vectors::input_buffer();
    let mut input = rt.stdin();
    let n = vectors::read_full(&mut input, &mut buffer);
    tell_lines(&rt, &buffer[..n]);
}
