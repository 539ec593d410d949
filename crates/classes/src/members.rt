// The members of a class. `from` is the position of the class's `[`, the place of a class that is not closed; `strict` asks for the depot profile.
ghost use Rattle.std.specs.Prelude.{◌≡◌, true, ◌<◌, length};
ghost use Rattle.syntax.specs.Read.{read_of};
ghost use Rattle.syntax.specs.Classes.{element, range_end, range_of, makes_range, member};
ghost use Rattle.escapes.specs.Says.{member_of};

use crate::ranges::ends_alike;
use escapes::{Member, class_escape_at, posix_at};
use lexemes::{CLOSING_BRACKET, MINUS, peek};
use syntax::{Parsed, Reading, Reason, Refusal};

// A byte or a set, as a member or as a range's end.
fn element_at(rule: &[u8], from: usize, at: usize) -> Reading<Member>
    ensures { read_of member_of result ≡ element rule.now from at }
{
    let Some(b) = rule.get(at) else {
        return Err(Refusal::at(from, Reason::UnclosedClass));
    };
    match *b {
        b'\\' => class_escape_at(rule, at),
        b'[' => posix_at(rule, at),
        byte => Ok(Parsed {
            value: Member::Single(byte),
            next: at + 1,
        }),
    }
}

// Whether a `-` makes a range: it does unless it is last.
fn makes_range(rule: &[u8], at: usize) -> bool
    ensures { (result ≡ makes_range rule.now at) × (result ≡ true → at < length rule.now) }
{
    if peek(rule, at) != MINUS {
        return false;
    }
    peek(rule, at + 1) != CLOSING_BRACKET
}

// The range between two ends; `at` is where it begins. The ends are bytes, the first not above the second, and the profile takes only ends that are alike.
fn range_of(at: usize, low: Member, high: Parsed<Member>, strict: bool) -> Reading<Member>
    ensures { read_of member_of result ≡ range_of strict at (range_end (member_of low)) (range_end (member_of high.value)) high.next }
{
    let Member::Single(a) = low else {
        return Err(Refusal::at(at, Reason::BadRange));
    };
    let Member::Single(b) = high.value else {
        return Err(Refusal::at(at, Reason::BadRange));
    };
    if b < a {
        return Err(Refusal::at(at, Reason::BadRange));
    }
    if strict {
        if !ends_alike(a, b) {
            return Err(Refusal::at(at, Reason::MixedRange));
        }
    }
    Ok(Parsed {
        value: Member::Range(a, b),
        next: high.next,
    })
}

// One element, or one range.
pub fn member_at(rule: &[u8], from: usize, at: usize, strict: bool) -> Reading<Member>
    ensures { read_of member_of result ≡ member rule.now strict from at }
{
    let low = element_at(rule, from, at)?;
    if !makes_range(rule, low.next) {
        return Ok(low);
    }
    let high = element_at(rule, from, low.next + 1)?;
    range_of(at, low.value, high, strict)
}
