// Named sets in a class: `[:name:]` and `[:^name:]`. `at` is the position of the `[`, and the place of a refusal.
ghost use Rattle.std.specs.Prelude.{◌≡◌, ◌+◌, ◌≤◌, ◌<◌, length, drop};
ghost use Rattle.syntax.specs.Read.{read_of};
ghost use Rattle.syntax.specs.Sets.{namings, lookup, set_named};
ghost use Rattle.syntax.specs.Classes.{letters, posix_member, posix_name, posix};
ghost use Rattle.escapes.specs.Says.{member_of, set_of};

use crate::Member;
use crate::escapes::single;
use charset::Named;
use lexemes::{CARET, CLOSING_BRACKET, COLON, peek};
use syntax::{Parsed, Reading, Reason, Refusal};

// The set that a name stands for, if it is one's. The names are compared in the order of the definition's list. A `match` on them was tried, and its
// proof did not close: its last arm wants one for each way in which a name can differ from all fourteen, and the check finds none of these.
fn set_named(name: &[u8]) -> Option<Named>
    ensures { set_of result ≡ set_named name.now }
{
    if name == b"digit".as_slice() {
        return Some(Named::Digit);
    }
    if name == b"word".as_slice() {
        return Some(Named::Word);
    }
    if name == b"space".as_slice() {
        return Some(Named::Space);
    }
    if name == b"alpha".as_slice() {
        return Some(Named::Alpha);
    }
    if name == b"upper".as_slice() {
        return Some(Named::Upper);
    }
    if name == b"lower".as_slice() {
        return Some(Named::Lower);
    }
    if name == b"alnum".as_slice() {
        return Some(Named::Alnum);
    }
    later_named(name)
}

// The same, for the names behind the first seven of the list.
fn later_named(name: &[u8]) -> Option<Named>
    ensures { set_of result ≡ lookup (drop 7 namings) name.now }
{
    if name == b"xdigit".as_slice() {
        return Some(Named::Xdigit);
    }
    if name == b"blank".as_slice() {
        return Some(Named::Blank);
    }
    if name == b"cntrl".as_slice() {
        return Some(Named::Cntrl);
    }
    if name == b"ascii".as_slice() {
        return Some(Named::Ascii);
    }
    if name == b"print".as_slice() {
        return Some(Named::Print);
    }
    if name == b"graph".as_slice() {
        return Some(Named::Graph);
    }
    if name == b"punct".as_slice() {
        return Some(Named::Punct);
    }
    None
}

// The position behind the lower-case letters at a position.
fn letters_end(rule: &[u8], from: usize) -> usize
    requires { from ≤ length rule.now }
    ensures { (result ≡ from + length (letters rule.now from)) × (result ≤ length rule.now) }
{
    let letters = rule[from..].iter().take_while(|b| b.is_ascii_lowercase());
    from + letters.count()
}

// The member that a named set or its complement is.
fn posix_member(at: usize, negated: bool, set: Option<Named>, next: usize) -> Reading<Member>
    ensures { read_of member_of result ≡ posix_member at negated (set_of set) next }
{
    let Some(named) = set else {
        return Err(Refusal::at(at, Reason::UnknownSet));
    };
    if negated {
        return Ok(Parsed {
            value: Member::NotSet(named),
            next,
        });
    }
    Ok(Parsed {
        value: Member::Set(named),
        next,
    })
}

// Letters and `:]` make a named set; without them the `[` is literal.
fn posix_name_at(rule: &[u8], at: usize, negated: bool, start: usize) -> Reading<Member>
    requires { (at < start) × (start ≤ length rule.now) }
    ensures { read_of member_of result ≡ posix_name rule.now at negated start }
{
    let end = letters_end(rule, start);
    if peek(rule, end) != COLON {
        return single(b'[', at + 1);
    }
    if peek(rule, end + 1) != CLOSING_BRACKET {
        return single(b'[', at + 1);
    }
    posix_member(at, negated, set_named(&rule[start..end]), end + 2)
}

// A `[` in a class.
pub fn posix_at(rule: &[u8], at: usize) -> Reading<Member>
    requires { at < length rule.now }
    ensures { read_of member_of result ≡ posix rule.now at }
{
    if peek(rule, at + 1) != COLON {
        return single(b'[', at + 1);
    }
    if peek(rule, at + 2) == CARET {
        return posix_name_at(rule, at, true, at + 3);
    }
    posix_name_at(rule, at, false, at + 2)
}
