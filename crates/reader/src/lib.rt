// Reads a rule's alternations, sequences, items and groups, and appends a node for each part to a lent area. The names of its groups go to a table of
// their own: two numbers for each, where the name begins in the rule, and its length.
//
// The readers are a cycle of calls, as the grammar is, with an allowance of brackets that falls at each.
#![tactic(auto)]

ghost use Rattle.std.specs.Prelude.{◌≡◌, ◌+◌, ◌≤◌, ◌<◌, length};
ghost use Rattle.syntax.specs.Limits.{rule_limit, spans_length};
ghost use Rattle.syntax.specs.Grammar.{ends};
ghost use Rattle.reader.specs.Areas.{table_start};
ghost use Rattle.parts.specs.Says.{behind_node, Ready};
ghost use Rattle.reader.specs.Says.{Naming, Groups, Turns, Branch, Furthers, Alternates, Reads};

use brackets::{Opening, opening_at};
use lexemes::{END, behind_blanks, peek};
use parts::{Before, CLOSING, Cursor, Part, Step, close, other};
use syntax::node::LAST;
use syntax::{NESTING_LIMIT, Reason, Refusal};
use writer::{put_branch, put_three};

mod compiling;

pub use compiling::{Compiled, TABLE_START, compile};

// Bytes that a rule gives a meaning, as `peek` gives them.
const OPENING: u32 = b'(' as u32;

const BAR: u32 = b'|' as u32;

// A group, whose opening bracket stands at the cursor, behind the part at `before`.
#[cycle(alternation_further_group_piece_sequence)]
fn group(
    rule: &[u8],
    flags: u32,
    area: &mut [u32],
    table: &mut [u32],
    c: Cursor,
    before: usize,
    depth: u32,
) -> Result<Part, Refusal>
    requires { Ready (length rule.now) area.old c × Naming rule.now table.old c × (c.at < length rule.now) × (before < c.used) }
    ensures { Groups rule.now flags depth area.old area.new table.old table.new c before result }
{
    let Opening {
        start,
        opened,
        form,
    } = opening_at(rule, table, c.at, c.opened, depth)?;
    let inner = Cursor {
        at: start,
        used: c.used,
        opened,
    };
    let inside = alternation(rule, flags, area, table, inner, depth - 1)?;
    close(rule, area, c.at, form, before, inside)
}

// One part more of a sequence: an item, a group, or a repeat of its last part.
#[cycle(alternation_further_group_piece_sequence)]
fn piece(
    rule: &[u8],
    flags: u32,
    area: &mut [u32],
    table: &mut [u32],
    so_far: Step,
    depth: u32,
) -> Result<Step, Refusal>
    requires { Ready (length rule.now) area.old so_far.cursor
        × Naming rule.now table.old so_far.cursor × (so_far.cursor.at < length rule.now) × (so_far.node < so_far.cursor.used) }
    ensures { Turns rule.now flags depth area.old area.new table.old table.new so_far.cursor so_far.node so_far.kind result }
{
    let c = so_far.cursor;
    if peek(rule, c.at) == OPENING {
        let Part { cursor, node } = group(rule, flags, area, table, c, so_far.node, depth)?;
        return Ok(Step {
            cursor,
            node,
            kind: Before::Repeatable,
        });
    }
    other(rule, flags, area, so_far)
}

// Whether a sequence ends at a byte.
fn stops(b: u32) -> bool
    ensures { result ≡ ends b }
{
    matches!(b, BAR | CLOSING | END)
}

// The parts up to a bar, a closing bracket or the end. Blanks are skipped before each part and before the end, and nowhere else.
#[cycle(alternation_further_group_piece_sequence)]
fn sequence(
    rule: &[u8],
    flags: u32,
    area: &mut [u32],
    table: &mut [u32],
    c: Cursor,
    depth: u32,
) -> Result<Part, Refusal>
    requires { Ready (length rule.now) area.old c × Naming rule.now table.old c }
    ensures { Branch rule.now flags depth area.old area.new table.old table.new c result }
{
    let mut so_far = Step {
        cursor: c,
        node: 0,
        kind: Before::Nothing,
    };
    loop {
        let at = behind_blanks(rule, flags, so_far.cursor.at);
        let cursor = Cursor {
            at,
            ..so_far.cursor
        };
        let here = Step { cursor, ..so_far };
        if stops(peek(rule, at)) {
            return Ok(Part {
                cursor,
                node: here.node,
            });
        }
        so_far = piece(rule, flags, area, table, here, depth)?;
    }
}

// The further branches as long as a bar follows, behind the first. They are counted for the bars. A node names the branch before it by its position, and
// 0, no branch's position, stands for none there, and so here.
#[cycle(alternation_further_group_piece_sequence)]
fn further(
    rule: &[u8],
    flags: u32,
    area: &mut [u32],
    table: &mut [u32],
    first: Part,
    depth: u32,
) -> Result<Part, Refusal>
    requires { Ready (length rule.now) area.old first.cursor × Naming rule.now table.old first.cursor × (first.node < first.cursor.used) }
    ensures { Furthers rule.now flags depth area.old area.new table.old table.new first.cursor first.node result }
{
    let mut branch = first;
    let mut before = 0;
    let mut count = 1;
    loop {
        let Part {
            cursor: c,
            node: last,
        } = branch;
        if peek(rule, c.at) != BAR {
            if before == 0 {
                return Ok(branch);
            }
            put_three(area, c.used, LAST, last as u32, before as u32);
            return Ok(c.part(c.at, 3));
        }
        put_branch(area, c.used, last as u32, before as u32, count, c.at);
        branch = sequence(rule, flags, area, table, c.behind(c.at + 1, 4), depth)?;
        before = c.used;
        count += 1;
    }
}

// The branches.
#[cycle(alternation_further_group_piece_sequence)]
fn alternation(
    rule: &[u8],
    flags: u32,
    area: &mut [u32],
    table: &mut [u32],
    c: Cursor,
    depth: u32,
) -> Result<Part, Refusal>
    requires { Ready (length rule.now) area.old c × Naming rule.now table.old c }
    ensures { Alternates rule.now flags depth area.old area.new table.old table.new c result }
{
    let first = sequence(rule, flags, area, table, c, depth)?;
    further(rule, flags, area, table, first, depth)
}

// Reads a whole rule. Its nodes stand behind that of the end, at position 0.
pub fn read_rule(
    rule: &[u8],
    flags: u32,
    area: &mut [u32],
    table: &mut [u32],
) -> Result<Part, Refusal>
    requires { (length rule.now ≤ rule_limit) × (table_start ≤ length area.old) × (spans_length ≤ length table.old) }
    ensures { Reads rule.now flags area.new table.new result }
{
    area[0] = syntax::node::END;
    let start = Cursor {
        at: 0,
        used: 1,
        opened: 0,
    };
    let inside = alternation(rule, flags, area, table, start, NESTING_LIMIT)?;
    let end = inside.cursor.at;
    if peek(rule, end) != END {
        return Err(Refusal::at(end, Reason::UnopenedGroup));
    }
    Ok(inside)
}
