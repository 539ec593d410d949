// Writes the nodes of a rule that is being read into a lent area, each behind those before it.
#![tactic(auto)]

ghost use Rattle.std.specs.Prelude.{◌≡◌, [], ◌∷◌, ◌+◌, ◌≤◌, ◌<◌, drop, length};
ghost use Rattle.syntax.specs.Limits.{group_limit, slot};
ghost use Rattle.syntax.specs.Flags.{ignore_case};
ghost use Rattle.syntax.specs.Checkable.{crowded_at};
ghost use Rattle.syntax.specs.Compiled.{marked, most_word, greed_word, folded_word};
ghost use Rattle.writer.specs.Wrote.{Wrote};

use syntax::node::{
    AGAIN, BRANCH, BYTE, CLOSE, FORBID, MARK, NAMED, NOT_AHEAD, OPEN, REFERENCE, REPEAT,
};
use syntax::{Flags, Greed, Most};

// As many branches as one byte can tell apart: a check follows no more.
const BRANCH_LIMIT: usize = 256;

// Writes three numbers.
pub fn put_three(area: &mut [u32], at: usize, x: u32, y: u32, z: u32)
    requires { at + 3 ≤ length area.old }
    ensures { Wrote area.old area.new at 3 (x ∷ y ∷ z ∷ []) }
{
    area[at] = x;
    area[at + 1] = y;
    area[at + 2] = z;
}

// Writes four numbers.
pub fn put_four(area: &mut [u32], at: usize, x: u32, y: u32, z: u32, w: u32)
    requires { at + 4 ≤ length area.old }
    ensures { Wrote area.old area.new at 4 (x ∷ y ∷ z ∷ w ∷ []) }
{
    put_three(area, at, x, y, z);
    area[at + 3] = w;
}

// Writes a byte item in front of the words of its class, which stand there already.
pub fn put_byte_head(area: &mut [u32], at: usize, before: u32, place: u32)
    requires { at + 11 ≤ length area.old }
    ensures { Wrote area.old area.new at 11 (0 ∷ before ∷ place ∷ drop (at + 3) area.old) }
{
    area[at] = BYTE;
    area[at + 1] = before;
    area[at + 2] = place;
}

// Writes a reference.
pub fn put_reference(area: &mut [u32], at: usize, before: u32, place: u32, number: u32, folded: u32)
    requires { at + 5 ≤ length area.old }
    ensures { Wrote area.old area.new at 5 (11 ∷ before ∷ place ∷ number ∷ folded ∷ []) }
{
    put_four(area, at, REFERENCE, before, place, number);
    area[at + 4] = folded;
}

// Writes a reference by name: where the name begins in the rule, and its length.
pub fn put_named(
    area: &mut [u32],
    at: usize,
    before: u32,
    place: u32,
    from: u32,
    folded: u32,
    len: u32,
)
    requires { at + 6 ≤ length area.old }
    ensures { Wrote area.old area.new at 6 (2 ∷ before ∷ place ∷ from ∷ folded ∷ len ∷ []) }
{
    put_three(area, at, NAMED, before, place);
    put_three(area, at + 3, from, folded, len);
}

// Writes a group that captures.
pub fn put_group(area: &mut [u32], at: usize, before: u32, number: u32, inside: u32)
    requires { (at + 7 ≤ length area.old) × (1 ≤ number) × (number ≤ group_limit) }
    ensures { Wrote area.old area.new at 7 (4 ∷ before ∷ 0 ∷ slot number ∷ 3 ∷ inside ∷ 0 ∷ []) }
{
    put_four(area, at, CLOSE, before, 0, 2 * (number - 1));
    put_three(area, at + 4, OPEN, inside, 0);
}

// Writes a held part, or looking ahead, by its kind.
pub fn put_marked(area: &mut [u32], at: usize, kind: u32, before: u32, place: u32, inside: u32)
    requires { at + 7 ≤ length area.old }
    ensures { Wrote area.old area.new at 7 (kind ∷ before ∷ 0 ∷ place ∷ 13 ∷ inside ∷ 0 ∷ []) }
{
    put_four(area, at, kind, before, 0, place);
    put_three(area, at + 4, MARK, inside, 0);
}

// Writes negative looking ahead.
pub fn put_not_ahead(area: &mut [u32], at: usize, before: u32, place: u32, inside: u32)
    requires { at + 8 ≤ length area.old }
    ensures { Wrote area.old area.new at 8 (17 ∷ before ∷ 0 ∷ place ∷ 16 ∷ inside ∷ 0 ∷ 0 ∷ []) }
{
    put_four(area, at, NOT_AHEAD, before, 0, place);
    put_four(area, at + 4, FORBID, inside, 0, 0);
}

// The number of a bar behind so many branches: one more than its place if a check cannot follow the branch behind it, and 0 otherwise.
fn bar_word(count: usize, bar: usize) -> u32
    requires { bar + 1 < 4294967296 }
    ensures { result ≡ marked (crowded_at count bar) }
{
    if count == BRANCH_LIMIT {
        return (bar + 1) as u32;
    }
    0
}

// Writes a branch that a bar follows: there are so many branches with it.
pub fn put_branch(area: &mut [u32], at: usize, inside: u32, before: u32, count: usize, bar: usize)
    requires { (at + 4 ≤ length area.old) × (bar + 1 < 4294967296) }
    ensures { Wrote area.old area.new at 4 (5 ∷ inside ∷ before ∷ marked (crowded_at count bar) ∷ []) }
{
    let word = bar_word(count, bar);
    put_four(area, at, BRANCH, inside, before, word);
}

// The number that says whether items are folded.
pub fn folded_word(flags: u32) -> u32
    ensures { result ≡ folded_word (ignore_case flags) }
{
    u32::from(Flags(flags).ignores_case())
}

// Writes a repeat. Its place gives way to its register when it is linked.
pub fn put_repeat(
    area: &mut [u32],
    at: usize,
    least: u32,
    most: Most,
    greed: Greed,
    place: u32,
    body: u32,
    before: u32,
)
    requires { at + 8 ≤ length area.old }
    ensures { Wrote area.old area.new at 8 (7 ∷ 8 ∷ least ∷ most_word most ∷ greed_word greed ∷ place ∷ body ∷ before ∷ []) }
{
    put_four(area, at, REPEAT, AGAIN, least, u32::from(most));
    put_four(area, at + 4, u32::from(greed), place, body, before);
}
