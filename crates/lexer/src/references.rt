// References to groups. Groups are numbered from 1, and 0 stands for one that no rule has. `at` is the backslash's position, and the place of
// every refusal.
ghost use Rattle.std.specs.Prelude.{◌≡◌, ℕ, ◌+◌, ◌≤◌, length};
ghost use Rattle.syntax.specs.Limits.{group_limit};
ghost use Rattle.syntax.specs.Read.{sound, and_then, read_of};
ghost use Rattle.syntax.specs.Escapes.{forward, backward, decimal, signed, group_number};
ghost use Rattle.lexemes.specs.Says.{capped};

use lexemes::{CLOSING_BRACE, MINUS, OPENING_BRACE, number_at, peek};
use syntax::{GROUP_LIMIT, Parsed, Reading, Reason, Refusal};

// The number at a position, for each use that does not see where numbers are capped. A reference is malformed whose number is missing.
fn decimal_at(rule: &[u8], at: usize, from: usize) -> Reading<u32>
    requires { from ≤ length rule.now }
    ensures { (f : ℕ → ℕ) → ((n : ℕ) → f (capped n) ≡ f n) → read_of f result ≡ and_then (decimal rule.now at from) (λ n next. sound (f n) next) }
{
    let number = number_at(rule, 10, from);
    if number.next == from {
        return Err(Refusal::at(at, Reason::MalformedEscape));
    }
    Ok(number)
}

// N, counted from the rule's first group on.
pub fn forward_at(rule: &[u8], at: usize, from: usize) -> Reading<u32>
    requires { from ≤ length rule.now }
    ensures { read_of (λ n. n) result ≡ and_then (decimal rule.now at from) (λ n next. sound (forward n) next) }
{
    let number = decimal_at(rule, at, from)?;
    if GROUP_LIMIT < number.value {
        return Ok(Parsed {
            value: 0,
            next: number.next,
        });
    }
    Ok(number)
}

// -N, counted from the latest group back.
fn backward_at(rule: &[u8], opened: u32, at: usize, from: usize) -> Reading<u32>
    requires { (opened ≤ group_limit) × (from ≤ length rule.now) }
    ensures { read_of (λ n. n) result ≡ and_then (decimal rule.now at from) (λ n next. sound (backward opened n) next) }
{
    let number = decimal_at(rule, at, from)?;
    if number.value == 0 {
        return Ok(number);
    }
    Ok(Parsed {
        value: (opened + 1).saturating_sub(number.value),
        next: number.next,
    })
}

// N or -N.
fn signed_at(rule: &[u8], opened: u32, at: usize, from: usize) -> Reading<u32>
    requires { (opened ≤ group_limit) × (from ≤ length rule.now) }
    ensures { read_of (λ n. n) result ≡ signed rule.now opened at from }
{
    if peek(rule, from) == MINUS {
        return backward_at(rule, opened, at, from + 1);
    }
    forward_at(rule, at, from)
}

// `\g`: N or -N, in braces or not.
pub fn group_number_at(rule: &[u8], opened: u32, at: usize) -> Reading<u32>
    requires { (opened ≤ group_limit) × (at + 2 ≤ length rule.now) }
    ensures { read_of (λ n. n) result ≡ group_number rule.now opened at }
{
    if peek(rule, at + 2) != OPENING_BRACE {
        return signed_at(rule, opened, at, at + 2);
    }
    let group = signed_at(rule, opened, at, at + 3)?;
    if peek(rule, group.next) != CLOSING_BRACE {
        return Err(Refusal::at(at, Reason::MalformedEscape));
    }
    Ok(Parsed {
        value: group.value,
        next: group.next + 1,
    })
}
