// A rule card in words, written at a position of a lent slice; what is answered is the position behind it.
//
//   rule    ^tank (\w+):\x20\xA0*(?<litres>\d+) L$
//                           ^^^^
//   flag    i: A to Z and a to z match each other
//   budget  1000
//   groups  2
//
// The rule stands there as it is, so that it can be copied. Only a byte that cannot be printed is shown by its number, and marked: an escape that is not
// marked is the rule's own.
#![tactic(auto)]

ghost use Rattle.std.specs.Prelude.{◌≡◌, ◌+◌, ◌*◌, ◌≤◌, length};
ghost use Rattle.text.specs.Numbers.{decimal};
ghost use Rattle.fields_text.specs.Promises.{WroteUpTo};
ghost use Rattle.card_format.specs.CardDemands.{card_of};
ghost use Rattle.card_text.specs.Text.{line, one, each, rule_lines, flag_line, flag_lines, shown};
ghost use Rattle.card_text.specs.Room.{rule_room, flags_room, number_room, shown_room};

use fields_text::write_hex;
use report::{is_odd, is_printed};
use syntax::Flags;
use text::{NEWLINE, append, append_byte, append_number};

// Writes what stands for a byte of the rule, or under that.
fn write_one(byte: u8, under: bool, out: &mut [u8], at: usize) -> usize
    requires { at + 4 ≤ length out.old }
    ensures { WroteUpTo 4 out.old at (one under byte) out.new result }
{
    if is_printed(byte) {
        if under {
            return append_byte(out, at, b' ');
        }
        return append_byte(out, at, byte);
    }
    if under {
        return append(out, at, b"^^^^");
    }
    write_hex(byte, out, at)
}

// The same of each byte.
fn write_each(rule: &[u8], under: bool, out: &mut [u8], at: usize) -> usize
    requires { at + 4 * length rule.now ≤ length out.old }
    ensures { WroteUpTo (4 * length rule.now) out.old at (each under rule.now) out.new result }
{
    let mut end = at;
    for b in rule {
        end = write_one(*b, under, out, end);
    }
    end
}

// A line of what stands for the rule, or under that, behind a label.
fn write_line(label: &[u8; 8], rule: &[u8], under: bool, out: &mut [u8], at: usize) -> usize
    requires { at + (8 + 4 * length rule.now + 1) ≤ length out.old }
    ensures { WroteUpTo (8 + 4 * length rule.now + 1) out.old at (line label.now (each under rule.now)) out.new result }
{
    let first = append(out, at, label);
    let last = write_each(rule, under, out, first);
    append_byte(out, last, NEWLINE)
}

// Writes the rule, and under it what marks its odd bytes.
fn write_rule(rule: &[u8], out: &mut [u8], at: usize) -> usize
    requires { at + rule_room (length rule.now) ≤ length out.old }
    ensures { WroteUpTo (rule_room (length rule.now)) out.old at (rule_lines rule.now) out.new result }
{
    let end = write_line(b"rule    ", rule, false, out, at);
    if is_odd(rule) {
        return write_line(b"        ", rule, true, out, end);
    }
    end
}

// Writes what a flag does, if it is set.
fn write_flag(set: bool, words: &[u8], out: &mut [u8], at: usize) -> usize
    requires { at + (9 + length words.now) ≤ length out.old }
    ensures { WroteUpTo (9 + length words.now) out.old at (flag_line set words.now) out.new result }
{
    if !set {
        return at;
    }
    let first = append(out, at, b"flag    ");
    let last = append(out, first, words);
    append_byte(out, last, NEWLINE)
}

// Writes what the flags do.
fn write_flags(flags: u32, out: &mut [u8], at: usize) -> usize
    requires { at + flags_room ≤ length out.old }
    ensures { WroteUpTo flags_room out.old at (flag_lines flags) out.new result }
{
    if flags == 0 {
        return append(out, at, b"flags   none\n");
    }
    let set = Flags(flags);
    let s = write_flag(set.dot_takes_all(), b"s: a dot takes every byte", out, at);
    let m = write_flag(
        set.is_multiline(),
        b"m: ^ and $ hold at every newline",
        out,
        s,
    );
    let i = write_flag(
        set.ignores_case(),
        b"i: A to Z and a to z match each other",
        out,
        m,
    );
    let x = write_flag(
        set.is_extended(),
        b"x: blanks, and # up to the line's end, are skipped",
        out,
        i,
    );
    write_flag(
        set.in_depot(),
        b"D: the narrower rules of the depot profile",
        out,
        x,
    )
}

// Writes a number behind a label.
fn write_number(label: &[u8; 8], n: u32, out: &mut [u8], at: usize) -> usize
    requires { at + number_room ≤ length out.old }
    ensures { WroteUpTo number_room out.old at (line label.now (decimal n)) out.new result }
{
    let first = append(out, at, label);
    let last = append_number(out, first, n as u64);
    append_byte(out, last, NEWLINE)
}

// Writes a card: its rule, flags and budget and the number of its groups.
pub fn write_words(
    rule: &[u8],
    flags: u32,
    budget: u32,
    groups: u32,
    out: &mut [u8],
    at: usize,
) -> usize
    requires { at + shown_room (length rule.now) ≤ length out.old }
    ensures { WroteUpTo (shown_room (length rule.now)) out.old at (shown (card_of rule.now flags budget groups)) out.new result }
{
    let first = write_rule(rule, out, at);
    let second = write_flags(flags, out, first);
    let third = write_number(b"budget  ", budget, out, second);
    write_number(b"groups  ", groups, out, third)
}
