// Reads the openings of groups: what a group is, how deep it nests, and its name, in this order, which is that of the refusals on one bracket.
ghost use Rattle.std.specs.Prelude.{◌≡◌, true, List, [], ◌∷◌, ℕ, ◌+◌, ◌*◌, ◌≤◌, ◌<◌, length};
ghost use Rattle.syntax.specs.declared.Form.TheVariants.{Captured};
ghost use Rattle.syntax.specs.Limits.{group_limit, spans_length};
ghost use Rattle.name_table.specs.Table.{names_in, NamesFit};
ghost use Rattle.lexemes.specs.Says.{Peeked};
ghost use Rattle.writer.specs.Wrote.{Wrote};
ghost use Rattle.brackets.specs.Says.{head_of, SaysBracket, SaysHead, SaysOpening};

use crate::{Bracket, EQUALS, EXCLAMATION, GREATER, Opening, QUESTION};
use lexemes::{COLON, LESS, name_at, peek};
use name_table::group_called;
use syntax::{Form, GROUP_LIMIT, Parsed, Reason, Refusal};

// What group opens at a bracket with a `?` and the byte `d` behind it.
fn marked(d: u32, at: usize, opened: u32) -> Result<Bracket, Refusal>
    requires { at < 4294967296 }
    ensures { (s : List ℕ) → Peeked s (at + 1) 63 → Peeked s (at + 2) d → SaysBracket s at opened result }
{
    let start = at + 3;
    let form = match d {
        COLON => Form::Grouped,
        GREATER => Form::Held,
        EQUALS => Form::Ahead,
        EXCLAMATION => Form::NotAhead,
        LESS => {
            if opened < GROUP_LIMIT {
                return Ok(Bracket::Named { start });
            }
            return Err(Refusal::at(at, Reason::TooManyGroups));
        }
        _ => return Err(Refusal::at(at, Reason::UnknownGroup)),
    };
    Ok(Bracket::Begins { start, form })
}

// What group opens at a bracket, where so many groups have been opened.
fn bracket(rule: &[u8], at: usize, opened: u32) -> Result<Bracket, Refusal>
    requires { (at < length rule.now) × (length rule.now < 4294967296) }
    ensures { SaysBracket rule.now at opened result }
{
    if peek(rule, at + 1) == QUESTION {
        return marked(peek(rule, at + 2), at, opened);
    }
    if opened < GROUP_LIMIT {
        return Ok(Bracket::Captures { start: at + 1 });
    }
    Err(Refusal::at(at, Reason::TooManyGroups))
}

// Writes the name of the group behind those opened so far: where it begins in the rule, and its length.
fn put_name(table: &mut [u32], opened: u32, from: u32, len: u32)
    requires { (opened + 1 ≤ group_limit) × (spans_length ≤ length table.old) }
    ensures { Wrote table.old table.new (2 * opened) 2 (from ∷ len ∷ []) }
{
    let at = 2 * opened as usize;
    table[at] = from;
    table[at + 1] = len;
}

// The opening of the group that captures behind those opened so far.
fn captured(start: usize, opened: u32) -> Opening
    requires { opened + 1 ≤ group_limit }
    ensures { result ≡ record { start = start; opened = opened + 1; form = Captured (opened + 1) } }
{
    let number = opened + 1;
    Opening {
        start,
        opened: number,
        form: Form::Captured(number),
    }
}

// The name of a group that captures, whose bracket stands at a position and whose name begins at `start`.
fn name(
    rule: &[u8],
    table: &mut [u32],
    at: usize,
    start: usize,
    opened: u32,
) -> Result<Opening, Refusal>
    requires { (start ≤ length rule.now) × (length rule.now < 4294967296) × (opened + 1 ≤ group_limit)
        × (spans_length ≤ length table.old) × NamesFit rule.now table.old opened }
    ensures { SaysHead rule.now table.new start (Captured (opened + 1)) (head_of rule.now at (names_in rule.now table.old opened) start true) result }
{
    let Parsed { value: name, next } = name_at(rule, b'>', at, start)?;
    if group_called(rule, table, opened as usize, name.from, name.len).is_some() {
        return Err(Refusal::at(at, Reason::NameTwice));
    }
    put_name(table, opened, name.from as u32, name.len as u32);
    Ok(captured(next, opened))
}

// The opening of a group whose bracket stands at a position, where so many more may nest.
pub fn opening_at(
    rule: &[u8],
    table: &mut [u32],
    at: usize,
    opened: u32,
    depth: u32,
) -> Result<Opening, Refusal>
    requires { (at < length rule.now) × (length rule.now < 4294967296) × (opened ≤ group_limit)
        × (spans_length ≤ length table.old) × NamesFit rule.now table.old opened }
    ensures { (flags : ℕ) → SaysOpening rule.now flags depth at (names_in rule.now table.old opened) table.new result }
{
    let bracket = bracket(rule, at, opened)?;
    if depth == 0 {
        return Err(Refusal::at(at, Reason::TooDeep));
    }
    match bracket {
        Bracket::Named { start } => name(rule, table, at, start, opened),
        Bracket::Captures { start } => {
            put_name(table, opened, 0, 0);
            Ok(captured(start, opened))
        }
        Bracket::Begins { start, form } => Ok(Opening {
            start,
            opened,
            form,
        }),
    }
}
