// Escapes for a byte or a set. `at` is the backslash's position, and the place of every refusal.
ghost use Rattle.std.specs.Prelude.{◌≡◌, ℕ, ◌+◌, ◌<◌, ◌≤◌, length, MatchOption};
ghost use Rattle.syntax.specs.declared.Reason.TheVariants.{MalformedEscape, UnknownEscape};
ghost use Rattle.syntax.specs.Read.{read_of, sound, refused};
ghost use Rattle.syntax.specs.Sets.{single};
ghost use Rattle.syntax.specs.Escapes.{byte_of, braced, hex, braced_octal, octal, control, meanings, letter, common, class_escape};
ghost use Rattle.escapes.specs.Says.{member_of};

use crate::Member;
use charset::{Named, in_named};
use lexemes::{CLOSING_BRACE, OPENING_BRACE, digit_at, number_at, peek};
use syntax::{Parsed, Reading, Reason, Refusal};

// An escape whose number or letter is missing, of another form, unclosed or over its limit.
fn malformed(at: usize) -> Refusal
    ensures { result ≡ record { place = at; reason = MalformedEscape } }
{
    Refusal::at(at, Reason::MalformedEscape)
}

// One byte, which ends before `next`.
pub(crate) fn single(b: u8, next: usize) -> Reading<Member>
    ensures { read_of member_of result ≡ sound (single b) next }
{
    Ok(Parsed {
        value: Member::Single(b),
        next,
    })
}

// The byte that a number stands for, where it is at most 255.
fn byte_of(at: usize, v: u32, next: usize) -> Reading<Member>
    ensures { read_of member_of result ≡ byte_of at v next }
{
    if 255 < v {
        return Err(malformed(at));
    }
    single(v as u8, next)
}

// Digits from a position behind a brace, up to the closing one.
fn braced_at(rule: &[u8], base: u32, at: usize, from: usize) -> Reading<Member>
    requires { (2 ≤ base) × (base ≤ 16) × (from ≤ length rule.now) }
    ensures { read_of member_of result ≡ braced base rule.now at from }
{
    let Parsed { value, next } = number_at(rule, base, from);
    if next == from {
        return Err(malformed(at));
    }
    if peek(rule, next) != CLOSING_BRACE {
        return Err(malformed(at));
    }
    byte_of(at, value, next + 1)
}

// `\x`: two hex digits, or one or more in braces.
fn hex_at(rule: &[u8], at: usize) -> Reading<Member>
    requires { at < length rule.now }
    ensures { read_of member_of result ≡ hex rule.now at }
{
    if peek(rule, at + 2) == OPENING_BRACE {
        return braced_at(rule, 16, at, at + 3);
    }
    let Some(high) = digit_at(rule, 16, at + 2) else {
        return Err(malformed(at));
    };
    let Some(low) = digit_at(rule, 16, at + 3) else {
        return Err(malformed(at));
    };
    byte_of(at, high * 16 + low, at + 4)
}

// `\o`: one or more octal digits in braces.
fn braced_octal_at(rule: &[u8], at: usize) -> Reading<Member>
    requires { at < length rule.now }
    ensures { read_of member_of result ≡ braced_octal rule.now at }
{
    if peek(rule, at + 2) == OPENING_BRACE {
        return braced_at(rule, 8, at, at + 3);
    }
    Err(malformed(at))
}

// Up to three octal digits right behind the backslash.
pub fn octal_at(rule: &[u8], at: usize) -> Reading<Member>
    requires { at < length rule.now }
    ensures { read_of member_of result ≡ octal rule.now at }
{
    let Some(high) = digit_at(rule, 8, at + 1) else {
        return byte_of(at, 0, at + 1);
    };
    let Some(middle) = digit_at(rule, 8, at + 2) else {
        return byte_of(at, high, at + 2);
    };
    let Some(low) = digit_at(rule, 8, at + 3) else {
        return byte_of(at, high * 8 + middle, at + 3);
    };
    byte_of(at, (high * 8 + middle) * 8 + low, at + 4)
}

// `\c`: a letter, whose upper case is meant, or one of `@ [ ] ^ _ ?`, with the bit worth 64 flipped.
fn control_at(rule: &[u8], at: usize) -> Reading<Member>
    requires { at < length rule.now }
    ensures { read_of member_of result ≡ control rule.now at }
{
    let next = at + 3;
    let b = peek(rule, at + 2);
    match b {
        // `?`
        63 => single(127, next),
        // `@`, the upper case letters and `[`, and `] ^ _`
        64..=91 => single((b - 64) as u8, next),
        93..=95 => single((b - 64) as u8, next),
        // the lower case letters
        97..=122 => single((b - 96) as u8, next),
        _ => Err(malformed(at)),
    }
}

// What an escape of one letter stands for, if it is one.
fn meaning(b: u8) -> Option<Member>
    ensures { (at : ℕ) → MatchOption result (letter meanings at b ≡ refused at UnknownEscape) (λ m. letter meanings at b ≡ sound (member_of m) (at + 2)) }
{
    match b {
        b'a' => Some(Member::Single(0x07)),
        b'e' => Some(Member::Single(0x1B)),
        b'f' => Some(Member::Single(0x0C)),
        b'n' => Some(Member::Single(0x0A)),
        b'r' => Some(Member::Single(0x0D)),
        b't' => Some(Member::Single(0x09)),
        b'd' => Some(Member::Set(Named::Digit)),
        b'w' => Some(Member::Set(Named::Word)),
        b's' => Some(Member::Set(Named::Space)),
        b'h' => Some(Member::Set(Named::Horizontal)),
        b'v' => Some(Member::Set(Named::Vertical)),
        b'D' => Some(Member::NotSet(Named::Digit)),
        b'W' => Some(Member::NotSet(Named::Word)),
        b'S' => Some(Member::NotSet(Named::Space)),
        b'H' => Some(Member::NotSet(Named::Horizontal)),
        b'V' => Some(Member::NotSet(Named::Vertical)),
        _ => None,
    }
}

// The escapes of one letter.
fn letter_at(b: u8, at: usize, next: usize) -> Reading<Member>
    requires { next ≡ at + 2 }
    ensures { read_of member_of result ≡ letter meanings at b }
{
    let value = meaning(b).ok_or(Refusal::at(at, Reason::UnknownEscape))?;
    Ok(Parsed { value, next })
}

// The escapes that mean the same in a class and outside.
pub fn common_at(rule: &[u8], at: usize) -> Reading<Member>
    requires { at < length rule.now }
    ensures { read_of member_of result ≡ common rule.now at }
{
    let next = at + 2;
    let Some(b) = rule.get(at + 1) else {
        return Err(Refusal::at(at, Reason::TrailingBackslash));
    };
    if !in_named(Named::Word, *b) {
        return single(*b, next);
    }
    match *b {
        b'x' => hex_at(rule, at),
        b'o' => braced_octal_at(rule, at),
        b'c' => control_at(rule, at),
        letter => letter_at(letter, at, next),
    }
}

// An escape in a class.
pub fn class_escape_at(rule: &[u8], at: usize) -> Reading<Member>
    requires { at < length rule.now }
    ensures { read_of member_of result ≡ class_escape rule.now at }
{
    let b = peek(rule, at + 1);
    match b {
        // `b` is 08 here
        98 => single(0x08, at + 2),
        // `0` to `7`
        48..=55 => octal_at(rule, at),
        _ => common_at(rule, at),
    }
}
