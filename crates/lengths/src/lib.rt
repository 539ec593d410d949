// What the depot profile bars of a rule, and the least lengths that it asks for; and what a check cannot follow. A recursion over the rule's groups and
// repeats, one inside another, in which the levels that are left fall at each part. It goes over the nodes as the first pass left them in the rule
// area, and looks at each once. It has to come before linking, since the linked rule does not tell where an alternation ends, and a repeat's place there
// gives way to its register.
#![tactic(auto)]

ghost use Rattle.std.specs.Prelude.{◌≡◌, true, MatchOption, Ok, Err, ◌+◌, ◌≤◌, ltb, length, if◌then◌else◌};
ghost use Rattle.syntax.specs.Limits.{length_limit, level_limit};
ghost use Rattle.linker.specs.Nodes.{Part, Chain, Inside};
ghost use Rattle.lengths.specs.Measures.{IsNothing, Joined, Shorter, idle_at, Repeated, Enclosed, Singled, Deep, DeepBranches, Finds, FindsBranches, Judges, Follows};

use linker::{before_of, is_bracketed};
use name_table::word;
use syntax::node::{AHEAD, BREAK, BYTE, CLOSE, LAST, NAMED, PLAIN, REFERENCE, REPEAT, UNLIMITED};
use syntax::{Reason, Refusal};

// Where least lengths are held.
const LENGTH_LIMIT: usize = 65536;

// How many levels of sequences and repeats a rule can have, one inside another.
const LEVEL_LIMIT: u32 = 150;

// What was found of a part: its least length, and the places of its first reference and of its first repeat without upper bound whose body has the
// least length 0, of its first held part or looking ahead, and of its first bar before a 257th branch.
#[derive(Clone, Copy, Debug, PartialEq, Eq)]
struct Measured {
    least: usize,
    reference: Option<usize>,
    idle: Option<usize>,
    form: Option<usize>,
    crowd: Option<usize>,
}

// Nothing: it takes no bytes, and nothing is found in it.
fn nothing() -> Measured
    ensures { IsNothing result }
{
    Measured {
        least: 0,
        reference: None,
        idle: None,
        form: None,
        crowd: None,
    }
}

// Parts that follow one another.
fn follow(a: Measured, b: Measured) -> Measured
    requires { (a.least ≤ length_limit) × (b.least ≤ length_limit) }
    ensures { Joined a b result }
{
    Measured {
        least: (a.least + b.least).min(LENGTH_LIMIT),
        reference: a.reference.or(b.reference),
        idle: a.idle.or(b.idle),
        form: a.form.or(b.form),
        crowd: a.crowd.or(b.crowd),
    }
}

// Branches of which one is taken, with the bar between them if it stands before a 257th.
fn either(a: Measured, bar: Option<usize>, b: Measured) -> Measured
    ensures { Shorter a bar b result }
{
    Measured {
        least: a.least.min(b.least),
        reference: a.reference.or(b.reference),
        idle: a.idle.or(b.idle),
        form: a.form.or(b.form),
        crowd: a.crowd.or(bar.or(b.crowd)),
    }
}

// The place of the repeat at p, if it has no upper bound and its body's least length is 0.
fn own_idle(area: &[u32], p: usize, body: usize) -> Option<usize>
    requires { p + 8 ≤ length area.now }
    ensures { result ≡ idle_at area.now p body }
{
    if area[p + 3] == UNLIMITED && body == 0 {
        return Some(word(area, p + 5));
    }
    None
}

// The repeat at p, of whose body this was found.
fn repeated(area: &[u32], p: usize, body: Measured) -> Measured
    requires { (p + 8 ≤ length area.now) × (body.least ≤ length_limit) }
    ensures { Repeated area.now p body result }
{
    let least = word(area, p + 2);
    Measured {
        least: (least * body.least).min(LENGTH_LIMIT),
        idle: body.idle.or(own_idle(area, p, body.least)),
        ..body
    }
}

// How many bytes a held part or looking ahead takes, whose inside takes so many: looking ahead takes none.
fn taken(kind: u32, within: usize) -> usize
    ensures { result ≡ (if ltb kind 15 then within else 0) }
{
    if kind < AHEAD {
        return within;
    }
    0
}

// The group that captures, held part or looking ahead at p, of whose inside this was found. A possessive's place is behind those in its body.
fn enclosed(area: &[u32], p: usize, kind: u32, within: Measured) -> Measured
    requires { p + 7 ≤ length area.now }
    ensures { Enclosed area.now p kind within result }
{
    if kind == CLOSE {
        return within;
    }
    let place = word(area, p + 3);
    let form = place.min(within.form.unwrap_or(place));
    Measured {
        least: taken(kind, within.least),
        form: Some(form),
        ..within
    }
}

// The item at p, of a kind, or `\R`.
fn single(area: &[u32], p: usize, kind: u32) -> Measured
    requires { p + 3 ≤ length area.now }
    ensures { Singled area.now p kind result }
{
    let place = word(area, p + 2);
    match kind {
        BYTE => Measured {
            least: 1,
            ..nothing()
        },
        BREAK => Measured {
            least: 1,
            form: Some(place),
            ..nothing()
        },
        REFERENCE | NAMED => Measured {
            reference: Some(place),
            ..nothing()
        },
        _ => nothing(),
    }
}

// The part at p, in which so many levels may stand.
#[cycle(branches_chain_inside_part)]
fn part(area: &[u32], p: usize, depth: u32) -> Measured
    requires { Deep Part area.now p depth }
    ensures { Finds Part area.now p result }
{
    let kind = area[p];
    if is_bracketed(kind as usize) {
        let within = inside(area, word(area, p + 5), depth);
        return enclosed(area, p, kind, within);
    }
    match kind {
        PLAIN => inside(area, word(area, p + 2), depth),
        REPEAT => {
            let body = part(area, word(area, p + 6), depth - 1);
            repeated(area, p, body)
        }
        _ => single(area, p, kind),
    }
}

// A sequence, from its last part to its first. Its parts stand one level deeper. Nodes name those before them in two ways, here and in `branches`: an
// iterator for each would be longer than the two loops.
#[cycle(branches_chain_inside_part)]
fn chain(area: &[u32], last: usize, depth: u32) -> Measured
    requires { Deep Chain area.now last depth }
    ensures { Finds Chain area.now last result }
{
    let mut p = last;
    let mut m = nothing();
    while p != 0 {
        let before = before_of(area, p);
        let one = part(area, p, depth - 1);
        m = follow(one, m);
        p = before;
    }
    m
}

// Branches, from the latest to the first; `behind` was found of the last branch.
#[cycle(branches_chain_inside_part)]
fn branches(area: &[u32], last: usize, behind: Measured, depth: u32) -> Measured
    requires { DeepBranches area.now last depth }
    ensures { FindsBranches area.now last behind result }
{
    let mut p = last;
    let mut m = behind;
    while p != 0 {
        let held = word(area, p + 1);
        let before = word(area, p + 2);
        let bar = word(area, p + 3).checked_sub(1);
        let one = chain(area, held, depth);
        m = either(one, bar, m);
        p = before;
    }
    m
}

// What stands in a group, or in no group: nothing, an alternation with its last branch at p, or a sequence with its last part there.
#[cycle(branches_chain_inside_part)]
fn inside(area: &[u32], p: usize, depth: u32) -> Measured
    requires { Deep Inside area.now p depth }
    ensures { Finds Inside area.now p result }
{
    if p == 0 {
        return nothing();
    }
    if area[p] == LAST {
        let held = word(area, p + 1);
        let before = word(area, p + 2);
        let last = chain(area, held, depth);
        return branches(area, before, last, depth);
    }
    chain(area, p, depth)
}

// Refuses a rule at the place that was found, if one was.
fn refuse_at(found: Option<usize>, reason: Reason) -> Result<(), Refusal>
    ensures { MatchOption found (result ≡ Ok tt) (λ place. result ≡ Err (record { place = place; reason = reason })) }
{
    match found {
        Some(place) => Err(Refusal::at(place, reason)),
        None => Ok(()),
    }
}

// Judges a whole rule, whose inside the first pass left: whether it keeps to the profile. `judge` and `checkable` promise different things of one walk;
// all that they do alike is in `refuse_at`, and one function for both, with fields and reasons passed to it, would be no plainer.
pub fn judge(area: &[u32], p: usize) -> Result<(), Refusal>
    requires { Deep Inside area.now p level_limit }
    ensures { Judges true area.now p result }
{
    let m = inside(area, p, LEVEL_LIMIT);
    refuse_at(m.reference, Reason::BarredReference)?;
    refuse_at(m.idle, Reason::IdleRepeat)
}

// Whether a check can follow a whole rule, whose inside the first pass left.
pub fn checkable(area: &[u32], p: usize) -> Result<(), Refusal>
    requires { Deep Inside area.now p level_limit }
    ensures { Follows true area.now p result }
{
    let m = inside(area, p, LEVEL_LIMIT);
    refuse_at(m.form, Reason::HeldOrLook)?;
    refuse_at(m.crowd, Reason::TooManyBranches)
}
