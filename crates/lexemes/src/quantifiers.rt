// The quantifier at a position. Bounds are handed on as they were read, at most 1000: the limit on them is far below.
ghost use Rattle.std.specs.Prelude.{◌≡◌, ◌≤◌, length};
ghost use Rattle.syntax.specs.Quantifiers.{with_greed, at_least, from_to, upper, braces, quantifier};

use crate::numbers::{number_at, peek};
use syntax::{Greed, Most, Parsed, Quantifier};

// A repeat, which a `?` behind it makes lazy, and a `+` possessive.
fn with_greed(rule: &[u8], least: u32, most: Most, at: usize) -> Quantifier
    ensures { result ≡ with_greed rule.now least most at }
{
    let b = peek(rule, at);
    // `?`
    if b == 63 {
        let next = at + 1;
        return Quantifier::Times(least, most, Greed::Lazy, false, next);
    }
    // `+`
    if b == 43 {
        let next = at + 1;
        return Quantifier::Times(least, most, Greed::Greedy, true, next);
    }
    Quantifier::Times(least, most, Greed::Greedy, false, at)
}

// A repeat with no upper bound, in braces.
fn at_least(rule: &[u8], n: u32, at: usize) -> Quantifier
    ensures { result ≡ at_least rule.now n at }
{
    if 255 < n {
        return Quantifier::Unfit;
    }
    with_greed(rule, n, Most::Unlimited, at)
}

// A repeat with both bounds, in braces.
fn from_to(rule: &[u8], n: u32, m: u32, at: usize) -> Quantifier
    ensures { result ≡ from_to rule.now n m at }
{
    if m < n {
        return Quantifier::Unfit;
    }
    if 255 < m {
        return Quantifier::Unfit;
    }
    with_greed(rule, n, Most::AtMost(m), at)
}

// What stands behind the comma of a brace.
fn upper_at(rule: &[u8], n: u32, at: usize) -> Quantifier
    requires { at ≤ length rule.now }
    ensures { result ≡ upper rule.now n at }
{
    // `}`
    if peek(rule, at) == 125 {
        return at_least(rule, n, at + 1);
    }
    let Parsed { value: m, next } = number_at(rule, 10, at);
    if next == at {
        return Quantifier::Stray;
    }
    // `}`
    if peek(rule, next) == 125 {
        return from_to(rule, n, m, next + 1);
    }
    Quantifier::Stray
}

// What stands behind an opening brace.
fn braces_at(rule: &[u8], at: usize) -> Quantifier
    requires { at ≤ length rule.now }
    ensures { result ≡ braces rule.now at }
{
    let Parsed { value: n, next } = number_at(rule, 10, at);
    if next == at {
        return Quantifier::Stray;
    }
    let b = peek(rule, next);
    // `}`
    if b == 125 {
        return from_to(rule, n, n, next + 1);
    }
    // `,`
    if b == 44 {
        return upper_at(rule, n, next + 1);
    }
    Quantifier::Stray
}

// The quantifier at a position, if there is one.
pub fn quantifier_at(rule: &[u8], at: usize) -> Quantifier
    ensures { result ≡ quantifier rule.now at }
{
    let b = peek(rule, at);
    // `*`
    if b == 42 {
        return with_greed(rule, 0, Most::Unlimited, at + 1);
    }
    // `+`
    if b == 43 {
        return with_greed(rule, 1, Most::Unlimited, at + 1);
    }
    // `?`
    if b == 63 {
        return with_greed(rule, 0, Most::AtMost(1), at + 1);
    }
    // `{`
    if b == 123 {
        return braces_at(rule, at + 1);
    }
    Quantifier::Absent
}
