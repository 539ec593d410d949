// Names of groups. A name is told by where it stands in the rule. `place` is where a name that is ill-formed or unclosed is refused.
ghost use Rattle.std.specs.Prelude.{◌≡◌, ◌+◌, ◌≤◌, length};
ghost use Rattle.syntax.specs.Names.{word_at, is_name};
ghost use Rattle.syntax.specs.Escapes.{called, calls_by_name};
ghost use Rattle.lexemes.specs.Says.{SaysName, SaysNameUpTo};

use crate::Name;
use crate::ascii::{APOSTROPHE, END, LESS, OPENING_BRACE};
use crate::numbers::peek;
use charset::{Named, in_named};
use syntax::{NAME_LIMIT, Parsed, Reading, Reason, Refusal};

// The position behind the word bytes at a position.
fn word_end(rule: &[u8], from: usize) -> usize
    requires { from ≤ length rule.now }
    ensures { (result ≡ from + length (word_at rule.now from)) × (result ≤ length rule.now) }
{
    let word = rule[from..]
        .iter()
        .take_while(|b| in_named(Named::Word, **b));
    from + word.count()
}

// Whether the word bytes at a position, which end at the second, are a name.
fn is_name(rule: &[u8], at: usize, end: usize) -> bool
    requires { (end ≡ at + length (word_at rule.now at)) × (end ≤ length rule.now) }
    ensures { result ≡ is_name (word_at rule.now at) }
{
    let len = end - at;
    if len == 0 {
        return false;
    }
    if NAME_LIMIT < len {
        return false;
    }
    !in_named(Named::Digit, rule[at])
}

// The name at a position, up to the byte that closes it.
pub fn name_at(rule: &[u8], closer: u8, place: usize, at: usize) -> Reading<Name>
    requires { at ≤ length rule.now }
    ensures { SaysNameUpTo closer rule.now place at result }
{
    let end = word_end(rule, at);
    if !is_name(rule, at, end) {
        return Err(Refusal::at(place, Reason::BadName));
    }
    if peek(rule, end) != closer as u32 {
        return Err(Refusal::at(place, Reason::BadName));
    }
    Ok(Parsed {
        value: Name {
            from: at,
            len: end - at,
        },
        next: end + 1,
    })
}

// `\k`: a name in braces, in `<>` or between apostrophes. `at` is the backslash's position.
pub fn called_at(rule: &[u8], at: usize) -> Reading<Name>
    requires { at + 2 ≤ length rule.now }
    ensures { SaysName rule.now (called rule.now at) result }
{
    match peek(rule, at + 2) {
        OPENING_BRACE => name_at(rule, b'}', at, at + 3),
        LESS => name_at(rule, b'>', at, at + 3),
        APOSTROPHE => name_at(rule, b'\'', at, at + 3),
        _ => Err(Refusal::at(at, Reason::BadName)),
    }
}

// Whether a name follows `\g{`, which a letter or an underscore tells. `at` is the backslash's position.
pub fn calls_by_name(rule: &[u8], at: usize) -> bool
    requires { at + 2 ≤ length rule.now }
    ensures { result ≡ calls_by_name rule.now at }
{
    if peek(rule, at + 2) != OPENING_BRACE {
        return false;
    }
    let b = peek(rule, at + 3);
    if b == END {
        return false;
    }
    let first = b as u8;
    if !in_named(Named::Word, first) {
        return false;
    }
    !in_named(Named::Digit, first)
}
