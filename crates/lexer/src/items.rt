// Items that are no group. `at` is the position of an item's first byte. The words of a byte item hold its class, folded under the flag `i`; where
// that makes no difference, as for `.`, the promise is for both. They are written where the caller wants them: in a case of a token they would be put
// together byte by byte wherever it is handed on.
ghost use Rattle.std.specs.Prelude.{◌≡◌, List, Bool, ℕ, ◌+◌, ◌≤◌, ◌<◌, length, if◌then◌else◌};
ghost use Rattle.syntax.specs.Limits.{group_limit};
ghost use Rattle.syntax.specs.Read.{byte, Read, sound, and_then, read_of};
ghost use Rattle.syntax.specs.Sets.{Class, only, not_newline, any_byte};
ghost use Rattle.syntax.specs.Tree.{byte_in, assert, reference};
ghost use Rattle.syntax.specs.Flags.{dot_all, multiline, ignore_case, depot};
ghost use Rattle.syntax.specs.Names.{Names, group_called};
ghost use Rattle.syntax.specs.Escapes.{octal, common, escape};
ghost use Rattle.syntax.specs.Classes.{class};
ghost use Rattle.syntax.specs.Grammar.{atom};
ghost use Rattle.lexemes.specs.Says.{SaysName};
ghost use Rattle.escapes.specs.Says.{member_of};
ghost use Rattle.classes.specs.Says.{HoldsClass, SaysClass};
ghost use Rattle.lexer.specs.Says.{SaysItem};

use crate::Token;
use crate::references::{forward_at, group_number_at};
use charset::{add, complement, empty};
use classes::{class_at, with_member};
use escapes::{Member, common_at, octal_at};
use lexemes::{Name, called_at, calls_by_name, name_at};
use syntax::{Assertion, Flags, Parsed, Reading};

// Items with no class of their own -----------------------------------------------

fn assertion(which: Assertion, next: usize) -> Reading<Token>
    ensures { (s : List ℕ) (folded : Bool) (known : Names) (words : List ℕ) → SaysItem s folded known (sound (assert which) next) words result }
{
    Ok(Parsed {
        value: Token::Assert(which),
        next,
    })
}

// `^` or `$`: what it asserts at lines, under `m`, or else at the text's ends.
fn edge(flags: Flags, line: Assertion, text: Assertion, next: usize) -> Reading<Token>
    ensures { (s : List ℕ) (folded : Bool) (known : Names) (words : List ℕ) → SaysItem s folded known (sound (assert (if multiline flags.0 then line else text)) next) words result }
{
    if flags.is_multiline() {
        return assertion(line, next);
    }
    assertion(text, next)
}

fn group_item(group: Reading<u32>) -> Reading<Token>
    ensures { (s : List ℕ) (folded : Bool) (known : Names) (words : List ℕ) → SaysItem s folded known (and_then (read_of (λ n. n) group) (λ n next. sound (reference folded n) next)) words result }
{
    let number = group?;
    Ok(Parsed {
        value: Token::Reference(number.value),
        next: number.next,
    })
}

// A reference by name. Which group has it is known when the whole rule has been read.
fn called_item(name: Reading<Name>) -> Reading<Token>
    ensures { (s : List ℕ) (folded : Bool) (known : Names) (words : List ℕ) (a : Read (List ℕ)) → SaysName s a name → SaysItem s folded known (and_then a (λ n next. sound (reference folded (group_called n known)) next)) words result }
{
    let called = name?;
    Ok(Parsed {
        value: Token::Called(called.value),
        next: called.next,
    })
}

// Byte items ------------------------------------------------------------------------

// All bytes.
fn any_byte() -> [u32; 8]
    ensures { (folded : Bool) → HoldsClass folded result any_byte }
{
    complement(empty())
}

// All bytes but the newline.
fn not_newline() -> [u32; 8]
    ensures { (folded : Bool) → HoldsClass folded result not_newline }
{
    complement(add(empty(), b'\n'))
}

// `.`
fn dot(flags: Flags) -> [u32; 8]
    ensures { (folded : Bool) → HoldsClass folded result (if dot_all flags.0 then any_byte else not_newline) }
{
    if flags.dot_takes_all() {
        return any_byte();
    }
    not_newline()
}

// The item of a class, which is left in the words.
fn byte_item(class: [u32; 8], next: usize, words: &mut [u32]) -> Reading<Token>
    requires { length words.old ≡ 8 }
    ensures { (s : List ℕ) (folded : Bool) (known : Names) (c : Class) → HoldsClass folded class c → SaysItem s folded known (sound (byte_in folded c) next) words.new result }
{
    words.copy_from_slice(&class);
    Ok(Parsed {
        value: Token::Byte,
        next,
    })
}

// The item of a byte or a set alone, folded or not.
fn only_item(m: Member, folded: bool, next: usize, words: &mut [u32]) -> Reading<Token>
    requires { length words.old ≡ 8 }
    ensures { (s : List ℕ) (known : Names) → SaysItem s folded known (sound (byte_in folded (only (member_of m))) next) words.new result }
{
    let class = with_member(empty(), m, folded);
    byte_item(class, next, words)
}

// A byte or a set outside a class, folded or not.
fn member_item(m: Reading<Member>, folded: bool, words: &mut [u32]) -> Reading<Token>
    requires { length words.old ≡ 8 }
    ensures { (s : List ℕ) (known : Names) → SaysItem s folded known (and_then (read_of member_of m) (λ x next. sound (byte_in folded (only x)) next)) words.new result }
{
    let member = m?;
    only_item(member.value, folded, member.next, words)
}

// What a called function answers takes room, which is cleared where the function begins that calls it. So this and the next stand apart from `escape_at`,
// and `only_item` from `item_at`: there each escape, and each item, would pay for that room too.

// Up to three octal digits right behind the backslash, folded or not.
fn octal_item(rule: &[u8], folded: bool, at: usize, words: &mut [u32]) -> Reading<Token>
    requires { (at < length rule.now) × (length words.old ≡ 8) }
    ensures { (s : List ℕ) (known : Names)
        → SaysItem s folded known (and_then (octal rule.now at) (λ x next. sound (byte_in folded (only x)) next)) words.new result }
{
    member_item(octal_at(rule, at), folded, words)
}

// An escape that means the same in a class, folded or not.
fn common_item(rule: &[u8], folded: bool, at: usize, words: &mut [u32]) -> Reading<Token>
    requires { (at < length rule.now) × (length words.old ≡ 8) }
    ensures { (s : List ℕ) (known : Names)
        → SaysItem s folded known (and_then (common rule.now at) (λ x next. sound (byte_in folded (only x)) next)) words.new result }
{
    member_item(common_at(rule, at), folded, words)
}

// The class at a position, which the depot profile narrows.
fn class_item(rule: &[u8], flags: Flags, at: usize, words: &mut [u32]) -> Reading<Token>
    requires { (at < length rule.now) × (length words.old ≡ 8) }
    ensures { (known : Names) → SaysItem rule.now (ignore_case flags.0) known (and_then (class rule.now (depot flags.0) at) (λ x next. sound (byte_in (ignore_case flags.0) x) next)) words.new result }
{
    let class = class_at(rule, at, flags.ignores_case(), flags.in_depot())?;
    byte_item(class.value, class.next, words)
}

// By the first byte ---------------------------------------------------------------------

// `\g`: a name in braces, or a number.
fn group_at(rule: &[u8], opened: u32, at: usize) -> Reading<Token>
    requires { (opened ≤ group_limit) × (at + 2 ≤ length rule.now) × (byte rule.now (at + 1) ≡ 103) }
    ensures { (folded : Bool) (known : Names) (words : List ℕ) → SaysItem rule.now folded known (escape rule.now folded known opened at) words result }
{
    if calls_by_name(rule, at) {
        return called_item(name_at(rule, b'}', at, at + 3));
    }
    group_item(group_number_at(rule, opened, at))
}

// An escape outside a class, folded or not, where so many groups have been opened.
fn escape_at(rule: &[u8], folded: bool, opened: u32, at: usize, words: &mut [u32]) -> Reading<Token>
    requires { (opened ≤ group_limit) × (at < length rule.now) × (length words.old ≡ 8) }
    ensures { (known : Names) → SaysItem rule.now folded known (escape rule.now folded known opened at) words.new result }
{
    let next = at + 2;
    let Some(b) = rule.get(at + 1) else {
        return common_item(rule, folded, at, words);
    };
    match *b {
        b'N' => byte_item(not_newline(), next, words),
        b'A' => assertion(Assertion::TextStart, next),
        b'z' => assertion(Assertion::TextEnd, next),
        b'Z' => assertion(Assertion::LastLineEnd, next),
        b'b' => assertion(Assertion::WordBoundary, next),
        b'B' => assertion(Assertion::NoWordBoundary, next),
        b'0' => octal_item(rule, folded, at, words),
        b'1'..=b'9' => group_item(forward_at(rule, at, at + 1)),
        b'k' => called_item(called_at(rule, at)),
        b'g' => group_at(rule, opened, at),
        _ => common_item(rule, folded, at, words),
    }
}

// The item at a position, where so many groups have been opened. A byte item's class is left in the words.
pub fn item_at(rule: &[u8], flags: u32, opened: u32, at: usize, words: &mut [u32]) -> Reading<Token>
    requires { (opened ≤ group_limit) × (at < length rule.now) × (length words.old ≡ 8) }
    ensures { (known : Names) → SaysItem rule.now (ignore_case flags) known (atom rule.now flags known opened at) words.new result }
{
    let flags = Flags(flags);
    let folded = flags.ignores_case();
    let next = at + 1;
    let b = rule[at];
    match b {
        b'\\' => escape_at(rule, folded, opened, at, words),
        b'[' => class_item(rule, flags, at, words),
        b'.' => byte_item(dot(flags), next, words),
        b'^' => edge(flags, Assertion::LineStart, Assertion::TextStart, next),
        b'$' => edge(flags, Assertion::LineEnd, Assertion::LastLineEnd, next),
        _ => only_item(Member::Single(b), folded, next, words),
    }
}
