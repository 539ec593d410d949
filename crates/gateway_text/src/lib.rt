// The lines that the gateway writes, each at a position of a lent slice; what is answered is the position behind it.
#![tactic(auto)]

ghost use Rattle.std.specs.Prelude.{◌≡◌, ◌+◌, ◌*◌, ◌≤◌, length};
ghost use Rattle.text.specs.Writing.{Wrote};
ghost use Rattle.syntax.specs.Limits.{row_length, group_limit};
ghost use Rattle.syntax.specs.Refusals.{number_of};
ghost use Rattle.gateway_text.specs.Limits.{span_room, answer_room};
ghost use Rattle.gateway_text.specs.Lines.{span, spans, matched_line, not_matched_line, exhausted_line, too_long_line, refusal_line, unreadable_line};
ghost use Rattle.gateway_text.specs.Promises.{WroteLine};

use index::UNSET;
use syntax::Refusal;
use text::{NEWLINE, append, append_byte, append_number};

// The bytes of a group's span at most, and of an answer: a letter, two numbers, a span for each group of a row, and the 0A.
const SPAN_ROOM: usize = 22;

pub const ANSWER_ROOM: usize = 24 + SPAN_ROOM * syntax::GROUP_LIMIT as usize;

// A group's span.
fn write_span(from: u32, to: u32, out: &mut [u8], at: usize) -> usize
    requires { at + span_room ≤ length out.old }
    ensures { Wrote out.old at (span from to) out.new result × (result ≤ at + span_room) }
{
    if from == UNSET {
        return append(out, at, b" -");
    }
    let blank = append_byte(out, at, b' ');
    let first = append_number(out, blank, from as u64);
    let dash = append_byte(out, first, b'-');
    append_number(out, dash, to as u64)
}

// The spans of all groups that the rule has.
fn write_spans(row: &[u32], groups: u32, out: &mut [u8], at: usize) -> usize
    requires { (row_length ≤ length row.now) × (groups ≤ group_limit) × (at + span_room * groups ≤ length out.old) }
    ensures { Wrote out.old at (spans row.now groups) out.new result × (result ≤ at + span_room * groups) }
{
    let mut end = at;
    for i in 0..groups as usize {
        end = write_span(row[2 * i + 2], row[2 * i + 3], out, end);
    }
    end
}

// The line for a row.
pub fn write_matched(row: &[u32], groups: u32, out: &mut [u8], at: usize) -> usize
    requires { (row_length ≤ length row.now) × (groups ≤ group_limit) × (at + answer_room ≤ length out.old) }
    ensures { WroteLine out.old at (matched_line groups row.now) out.new result }
{
    let letter = append(out, at, b"M ");
    let start = append_number(out, letter, row[0] as u64);
    let blank = append_byte(out, start, b' ');
    let stop = append_number(out, blank, row[1] as u64);
    let spans = write_spans(row, groups, out, stop);
    append_byte(out, spans, NEWLINE)
}

// The line for no match. Each of the three lines that are one text has its own name, which its callers read: one function that is handed the text would be no
// plainer.
pub fn write_not_matched(out: &mut [u8], at: usize) -> usize
    requires { at + answer_room ≤ length out.old }
    ensures { WroteLine out.old at not_matched_line out.new result }
{
    append(out, at, b"N\n")
}

// The line for a start at which the budget was used up.
pub fn write_exhausted(start: u32, out: &mut [u8], at: usize) -> usize
    requires { at + answer_room ≤ length out.old }
    ensures { WroteLine out.old at (exhausted_line start) out.new result }
{
    let letter = append(out, at, b"X ");
    let number = append_number(out, letter, start as u64);
    append_byte(out, number, NEWLINE)
}

// The line for a line that is too long.
pub fn write_too_long(out: &mut [u8], at: usize) -> usize
    requires { at + answer_room ≤ length out.old }
    ensures { WroteLine out.old at too_long_line out.new result }
{
    append(out, at, b"L\n")
}

// The line for a refusal's number and place.
fn write_refused(number: u32, place: usize, out: &mut [u8], at: usize) -> usize
    requires { at + answer_room ≤ length out.old }
    ensures { WroteLine out.old at (refusal_line number place) out.new result }
{
    let letter = append(out, at, b"R ");
    let first = append_number(out, letter, number as u64);
    let blank = append_byte(out, first, b' ');
    let second = append_number(out, blank, place as u64);
    append_byte(out, second, NEWLINE)
}

// The line for a refused rule.
pub fn write_refusal(f: Refusal, out: &mut [u8], at: usize) -> usize
    requires { at + answer_room ≤ length out.old }
    ensures { WroteLine out.old at (refusal_line (number_of f.reason) f.place) out.new result }
{
    write_refused(u32::from(f.reason), f.place, out, at)
}

// The line for a file that cannot be read.
pub fn write_unreadable(out: &mut [u8], at: usize) -> usize
    requires { at + answer_room ≤ length out.old }
    ensures { WroteLine out.old at unreadable_line out.new result }
{
    append(out, at, b"F\n")
}
