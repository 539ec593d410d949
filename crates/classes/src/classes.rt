// Bracketed classes. `from` is the position of the class's `[`; `strict` asks for the depot profile.
ghost use Rattle.std.specs.Prelude.{◌≡◌, [], true, ◌||◌, ℕ, ◌<◌, length};
ghost use Rattle.charset.specs.Class.{has};
ghost use Rattle.syntax.specs.Sets.{is_member};
ghost use Rattle.syntax.specs.Classes.{members, class};
ghost use Rattle.escapes.specs.Says.{member_of};
ghost use Rattle.classes.specs.Says.{SaysMembers, SaysClass};

use crate::members::member_at;
use charset::{
    add, add_class, add_named, add_not_named, add_range, class_of, complement, empty, fold,
};
use escapes::Member;
use lexemes::{CARET, CLOSING_BRACKET, peek};
use syntax::{Parsed, Reading};

// The bytes of a member that is folded. A negated set is folded first and complemented after.
fn folded_member(m: Member) -> [u32; 8]
    ensures { (x : ℕ) → x < 256 → has result x ≡ is_member true x (member_of m) }
{
    match m {
        Member::Single(b) => fold(add(empty(), b)),
        Member::Range(low, high) => fold(add_range(empty(), low, high)),
        Member::Set(set) => fold(class_of(set)),
        Member::NotSet(set) => {
            let class = class_of(set);
            let both = fold(class);
            complement(both)
        }
    }
}

// The class with the bytes of a member too, folded or not. One that is not is added as it stands.
pub fn with_member(words: [u32; 8], m: Member, folded: bool) -> [u32; 8]
    ensures { (x : ℕ) → x < 256 → has result x ≡ (is_member folded x (member_of m) || has words x) }
{
    if folded {
        return add_class(words, folded_member(m));
    }
    match m {
        Member::Single(b) => add(words, b),
        Member::Range(low, high) => add_range(words, low, high),
        Member::Set(set) => add_named(words, set),
        Member::NotSet(set) => add_not_named(words, set),
    }
}

// The members up to the closing `]`. One that is first is a member.
fn members_at(
    rule: &[u8],
    from: usize,
    start: usize,
    folded: bool,
    strict: bool,
) -> Reading<[u32; 8]>
    ensures { SaysMembers folded (members (length rule.now) rule.now strict from true [] start) result }
{
    let mut words = empty();
    let mut at = start;
    loop {
        let member = member_at(rule, from, at, strict)?;
        // an array that a call makes of itself goes through a name of its own: the borrow checker covers no more
        let more = with_member(words, member.value, folded);
        words = more;
        at = member.next;
        if peek(rule, at) == CLOSING_BRACKET {
            return Ok(Parsed {
                value: words,
                next: at + 1,
            });
        }
    }
}

// The class at a position. Its members are folded one by one, so that a `^` complements what is folded.
pub fn class_at(rule: &[u8], from: usize, folded: bool, strict: bool) -> Reading<[u32; 8]>
    requires { from < length rule.now }
    ensures { SaysClass folded (class rule.now strict from) result }
{
    if peek(rule, from + 1) != CARET {
        return members_at(rule, from, from + 1, folded, strict);
    }
    let members = members_at(rule, from, from + 2, folded, strict)?;
    Ok(Parsed {
        value: complement(members.value),
        next: members.next,
    })
}
