// Reads the parts of a sequence that are no groups, and the end of a group.
ghost use Rattle.std.specs.Prelude.{◌≡◌, true, ◌+◌, ◌≤◌, ◌<◌, length};
ghost use Rattle.syntax.specs.Read.{byte, refused};
ghost use Rattle.syntax.specs.Grammar.{Sequence, unfit_for};
ghost use Rattle.brackets.specs.Says.{FormFits};
ghost use Rattle.parts.specs.Says.{behind_node, Ready, kind_of, Items, PlainItems, Others, Repeats, Closes};

use crate::{Before, CLOSING, Cursor, Part, Step};
use lexemes::{breaks_line, peek, quantifier_at};
use lexer::{Token, item_at};
use syntax::node::{AHEAD, ASSERTION, BREAK, HELD, PLAIN};
use syntax::{Form, Greed, Most, Parsed, Quantifier, Reason, Refusal};
use writer::{
    folded_word, put_byte_head, put_four, put_group, put_marked, put_named, put_not_ahead,
    put_reference, put_repeat, put_three,
};

// The refusal of a repeat whose bounds do not fit.
fn unfit(at: usize, kind: Before) -> Refusal
    ensures { (q : Sequence) → kind ≡ kind_of q → unfit_for q at ≡ refused result.place result.reason }
{
    match kind {
        Before::Nothing => Refusal::at(at, Reason::NothingToRepeat),
        Before::Repeatable | Before::Repeated => Refusal::at(at, Reason::BadBraces),
    }
}

// A repeat of the last part; the repeat ends at `next`. A possessive one stands alone in a held part.
fn repeated(
    area: &mut [u32],
    so_far: Step,
    least: u32,
    most: Most,
    greed: Greed,
    keeps: bool,
    next: usize,
) -> Result<Step, Refusal>
    requires { Ready next area.old so_far.cursor × (so_far.cursor.at < next) × (so_far.node < so_far.cursor.used)
        × (keeps ≡ true → so_far.cursor.at + 1 < next) }
    ensures { Repeats area.old area.new so_far.cursor so_far.node so_far.kind least most greed keeps next result }
{
    let Step {
        cursor: c,
        node: last,
        kind,
    } = so_far;
    match kind {
        Before::Nothing => Err(Refusal::at(c.at, Reason::NothingToRepeat)),
        Before::Repeated => Err(Refusal::at(c.at, Reason::RepeatOnRepeat)),
        Before::Repeatable => {
            let before = area[last + 1];
            let place = c.at as u32;
            let body = last as u32;
            if keeps {
                put_repeat(area, c.used, least, most, greed, place, body, 0);
                let node = c.used + 8;
                let own = (next - 1) as u32;
                put_marked(area, node, HELD, before, own, c.used as u32);
                return Ok(Step {
                    cursor: c.behind(next, 15),
                    node,
                    kind: Before::Repeated,
                });
            }
            put_repeat(area, c.used, least, most, greed, place, body, before);
            Ok(c.step(next, 8, Before::Repeated))
        }
    }
}

// An item that is no group, behind a sequence so far.
fn item(rule: &[u8], flags: u32, area: &mut [u32], so_far: Step) -> Result<Step, Refusal>
    requires { Ready (length rule.now) area.old so_far.cursor × (so_far.cursor.at < length rule.now) × (so_far.node < so_far.cursor.used) }
    ensures { Items rule.now flags area.old area.new so_far.cursor so_far.node result }
{
    let c = so_far.cursor;
    // where a byte item has its class; no other item is as long
    let words = &mut area[c.used + 3..c.used + 11];
    let Parsed { value: token, next } = item_at(rule, flags, c.opened, c.at, words)?;
    let before = so_far.node as u32;
    let place = c.at as u32;
    match token {
        Token::Byte => {
            put_byte_head(area, c.used, before, place);
            Ok(c.step(next, 11, Before::Repeatable))
        }
        Token::Assert(which) => {
            put_four(area, c.used, ASSERTION, before, place, u32::from(which));
            Ok(c.step(next, 4, Before::Nothing))
        }
        Token::Reference(number) => {
            put_reference(area, c.used, before, place, number, folded_word(flags));
            Ok(c.step(next, 5, Before::Repeatable))
        }
        Token::Called(name) => {
            let from = name.from as u32;
            let len = name.len as u32;
            put_named(area, c.used, before, place, from, folded_word(flags), len);
            Ok(c.step(next, 6, Before::Repeatable))
        }
    }
}

// An item that is no group, or `\R`, behind a sequence so far.
fn plain_item(rule: &[u8], flags: u32, area: &mut [u32], so_far: Step) -> Result<Step, Refusal>
    requires { Ready (length rule.now) area.old so_far.cursor × (so_far.cursor.at < length rule.now) × (so_far.node < so_far.cursor.used) }
    ensures { PlainItems rule.now flags area.old area.new so_far.cursor so_far.node result }
{
    let c = so_far.cursor;
    if breaks_line(rule, c.at) {
        put_three(area, c.used, BREAK, so_far.node as u32, c.at as u32);
        return Ok(c.step(c.at + 2, 3, Before::Repeatable));
    }
    item(rule, flags, area, so_far)
}

// One part more of a sequence, which is no group.
pub fn other(rule: &[u8], flags: u32, area: &mut [u32], so_far: Step) -> Result<Step, Refusal>
    requires { Ready (length rule.now) area.old so_far.cursor × (so_far.cursor.at < length rule.now) × (so_far.node < so_far.cursor.used)
        × (byte rule.now so_far.cursor.at ≡ 40 → ⊥) }
    ensures { Others rule.now flags area.old area.new so_far.cursor so_far.node so_far.kind result }
{
    let at = so_far.cursor.at;
    match quantifier_at(rule, at) {
        Quantifier::Absent => plain_item(rule, flags, area, so_far),
        Quantifier::Stray => Err(Refusal::at(at, Reason::BadBraces)),
        Quantifier::Unfit => Err(unfit(at, so_far.kind)),
        Quantifier::Times(least, most, greed, keeps, next) => repeated(
            area, so_far, least, most, greed, keeps, next,
        ),
    }
}

// The end of a group of a form, behind its inside.
pub fn close(
    rule: &[u8],
    area: &mut [u32],
    opening: usize,
    form: Form,
    before: usize,
    inside: Part,
) -> Result<Part, Refusal>
    requires { Ready (length rule.now) area.old inside.cursor × FormFits form × (opening < inside.cursor.at)
        × (before < inside.cursor.used) × (inside.node < inside.cursor.used) }
    ensures { Closes rule.now opening form before area.old area.new inside.cursor inside.node result }
{
    let c = inside.cursor;
    if peek(rule, c.at) != CLOSING {
        return Err(Refusal::at(opening, Reason::UnclosedGroup));
    }
    let before = before as u32;
    let node = inside.node as u32;
    let next = c.at + 1;
    match form {
        Form::Grouped => {
            put_three(area, c.used, PLAIN, before, node);
            Ok(c.part(next, 3))
        }
        Form::Captured(number) => {
            put_group(area, c.used, before, number, node);
            Ok(c.part(next, 7))
        }
        Form::Held => {
            put_marked(area, c.used, HELD, before, opening as u32, node);
            Ok(c.part(next, 7))
        }
        Form::Ahead => {
            put_marked(area, c.used, AHEAD, before, opening as u32, node);
            Ok(c.part(next, 7))
        }
        Form::NotAhead => {
            put_not_ahead(area, c.used, before, opening as u32, node);
            Ok(c.part(next, 8))
        }
    }
}
