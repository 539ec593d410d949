// Turns the nodes that the first pass left in the rule area into the compiled rule, in place, from the last part to the first. Only here does a
// reference by name get its group's number: the group may stand behind it, so that the first pass cannot tell.
//
// The nodes stay in the area of numbers that the caller lends, since there is no heap: their kinds are numbers of it, and a node names others by their
// positions, where 0, no node's position, stands for none. A position is a bare number too, whose bound is asked for where it is used: a type that
// holds the bound would be taken apart at each use, and be no plainer.
#![tactic(auto)]

ghost use Rattle.std.specs.Prelude.{◌≡◌, true, false, ◌+◌, ◌≤◌, ◌<◌, get_or, length};
ghost use Rattle.syntax.specs.Limits.{group_limit, rule_area_need, registers};
ghost use Rattle.linker.specs.Known.{known_in};
ghost use Rattle.linker.specs.Nodes.{before_of, Part, Chain, Inside};
ghost use Rattle.linker.specs.Linking.{Stands, StandAll, Linkable, Links, LinksAll, LinksWhole};
ghost use Rattle.linker.specs.Stores.{Put, PutTwo, Bracketed, PutAfter, GroupClosed, IsOneByte, EntryKind, RepeatClosed, Referred, Numbered, NameLinked};

mod names;

use name_table::word;
use names::NameTable;
use syntax::node::{
    AHEAD, BYTE, CLOSE, HELD, LAST, NAMED, NOT_AHEAD, PLAIN, REFERENCE, REPEAT, RUN,
};
use syntax::{Greed, Reason, Refusal, SPANS_LENGTH};

// Writes a number.
fn put(area: &mut [u32], at: usize, x: usize)
    requires { (at < length area.old) × (x < 4294967296) }
    ensures { Put area.old area.new at x }
{
    area[at] = x as u32;
}

// Writes two numbers, one behind the other.
fn put_two(area: &mut [u32], at: usize, x: usize, y: usize)
    requires { (at + 2 ≤ length area.old) × (x < 4294967296) × (y < 4294967296) }
    ensures { PutTwo area.old area.new at x y }
{
    put(area, at, x);
    put(area, at + 1, y);
}

// The part before the one at p.
pub fn before_of(area: &[u32], p: usize) -> usize
    requires { (p + 3 ≤ length area.now) × (get_or area.now p 0 ≡ 7 → p + 8 ≤ length area.now) }
    ensures { result ≡ before_of area.now p }
{
    if area[p] == REPEAT {
        return word(area, p + 7);
    }
    word(area, p + 1)
}

// Whether a part of a kind stands between an end and an opening: a group that captures, a held part, or looking ahead.
pub fn is_bracketed(kind: usize) -> bool
    ensures { (result ≡ true → Bracketed kind) × (result ≡ false → Bracketed kind → ⊥) }
{
    matches!(u32::try_from(kind), Ok(CLOSE | HELD | AHEAD | NOT_AHEAD))
}

// What follows negative looking ahead stands behind its opening too.
fn put_after(area: &mut [u32], p: usize, next: usize)
    requires { (p < length area.old) × (next ≤ rule_area_need) × (get_or area.old p 0 ≡ 17 → p + 8 ≤ length area.old) }
    ensures { PutAfter area.old area.new p next }
{
    if area[p] == NOT_AHEAD {
        put(area, p + 7, next);
    }
}

// Such a part whose inside is linked: what follows its end, its register, and where its inside begins.
fn close_group(area: &mut [u32], p: usize, next: usize, r: usize, entry: usize)
    requires { (p + 7 ≤ length area.old) × (next ≤ rule_area_need) × (r ≤ registers) × (entry ≤ rule_area_need) × (get_or area.old p 0 ≡ 17 → p + 8 ≤ length area.old) }
    ensures { GroupClosed area.old area.new p next r entry }
{
    put_two(area, p + 1, next, r);
    put_two(area, p + 5, entry, r);
    put_after(area, p, next);
}

// Whether one byte item stands at p, by itself or alone in a group that does not capture.
fn is_one_byte(area: &[u32], p: usize) -> bool
    requires { (p + 3 ≤ length area.now) × (get_or area.now p 0 ≡ 10 → get_or area.now (p + 2) 0 < p) }
    ensures { result ≡ true → IsOneByte area.now p }
{
    let kind = area[p];
    if kind == BYTE {
        return true;
    }
    if kind != PLAIN {
        return false;
    }
    let inside = word(area, p + 2);
    inside != 0 && area[inside] == BYTE && area[inside + 1] == 0
}

// The number at which a repeat is entered: a greedy repeat of one byte item is a run.
fn entry_kind(area: &[u32], p: usize, body: usize) -> u32
    requires { (p + 8 ≤ length area.now) × (body < p) × (get_or area.now body 0 ≡ 10 → get_or area.now (body + 2) 0 < body) }
    ensures { EntryKind area.now p body result }
{
    if area[p + 4] == u32::from(Greed::Greedy) && is_one_byte(area, body) {
        return RUN;
    }
    REPEAT
}

// A repeat whose body is linked: its kind, its register, where its body begins, and what follows it.
fn close_repeat(area: &mut [u32], p: usize, kind: u32, next: usize, r: usize, entry: usize)
    requires { (p + 8 ≤ length area.old) × (kind ≤ 10) × (next ≤ rule_area_need) × (r ≤ registers) × (entry ≤ rule_area_need) }
    ensures { RepeatClosed area.old area.new p kind next r entry }
{
    area[p] = kind;
    put_two(area, p + 5, r, entry);
    put(area, p + 7, next);
}

// A reference: its number becomes the slot of its group's span, if there is such a group. Whether it is folded stays as it was read. Here and in what
// follows `dangling` is the place of the first reference to no group so far.
fn link_reference(
    area: &mut [u32],
    p: usize,
    next: usize,
    groups: usize,
    dangling: Option<usize>,
) -> Option<usize>
    requires { (p + 4 ≤ length area.old) × (next ≤ rule_area_need) × (groups ≤ group_limit) }
    ensures { Referred groups area.old area.new p next dangling result }
{
    let number = word(area, p + 3);
    if number == 0 || groups < number {
        return Some(word(area, p + 2));
    }
    put(area, p + 1, next);
    put(area, p + 3, 2 * (number - 1));
    dangling
}

// A reference by name becomes one by number.
fn number_reference(area: &mut [u32], p: usize, names: &NameTable<'_>)
    requires { (p + 6 ≤ length area.old) × (names.now.groups ≤ group_limit) × (get_or area.old (p + 3) 0 + get_or area.old (p + 5) 0 ≤ length names.now.rule.now) }
    ensures { Numbered names.now.rule.now (known_in names.now) area.old area.new p }
{
    let from = word(area, p + 3);
    let len = word(area, p + 5);
    let number = names.called(from, len).unwrap_or(0);
    area[p] = REFERENCE;
    put(area, p + 3, number);
}

// A reference by name: its number is found first, then it is linked by that.
#[inline(never)]
fn link_named(
    area: &mut [u32],
    p: usize,
    next: usize,
    names: &NameTable<'_>,
    dangling: &mut Option<usize>,
) -> usize
    requires { (p + 6 ≤ length area.old) × (names.now.groups ≤ group_limit) × (get_or area.old (p + 3) 0 + get_or area.old (p + 5) 0 ≤ length names.now.rule.now) × (next ≤ rule_area_need) }
    ensures { NameLinked names.now.rule.now (known_in names.now) names.now.groups area.old area.new p next dangling.old result dangling.new }
{
    number_reference(area, p, names);
    *dangling = link_reference(area, p, next, names.groups, *dangling);
    p
}

// The part at p, which goes on at `next` and uses the registers from r on. It answers where the part is entered. What links
// groups, repeats and references by name is not taken into this function, since each other item would pay for its frame on the stack.
#[cycle(link_alternation_link_branches_link_chain_link_group_link_inside_link_part_link_plain_link_repeat)]
fn link_part(
    area: &mut [u32],
    p: usize,
    next: usize,
    r: usize,
    names: &NameTable<'_>,
    dangling: &mut Option<usize>,
) -> usize
    requires { Stands (Part names.now.rule.now (known_in names.now) area.old) names.now.groups r area.old p × (next ≤ rule_area_need) }
    ensures { Links (Part names.now.rule.now (known_in names.now) area.old) names.now.groups r area.old area.new p next dangling.old result dangling.new }
{
    match area[p] {
        REPEAT => link_repeat(area, p, next, r, names, dangling),
        PLAIN => link_plain(area, p, next, r, names, dangling),
        REFERENCE => {
            *dangling = link_reference(area, p, next, names.groups, *dangling);
            p
        }
        NAMED => link_named(area, p, next, names, dangling),
        kind if is_bracketed(kind as usize) => link_group(area, p, next, r, names, dangling),
        _ => {
            put(area, p + 1, next);
            p
        }
    }
}

// A capturing group, a held part or looking ahead: its inside goes on at its end, which stands at p; its opening stands behind that.
#[inline(never)]
#[cycle(link_alternation_link_branches_link_chain_link_group_link_inside_link_part_link_plain_link_repeat)]
fn link_group(
    area: &mut [u32],
    p: usize,
    next: usize,
    r: usize,
    names: &NameTable<'_>,
    dangling: &mut Option<usize>,
) -> usize
    requires { Stands (Part names.now.rule.now (known_in names.now) area.old) names.now.groups r area.old p × (next ≤ rule_area_need) × Bracketed (get_or area.old p 0) }
    ensures { Links (Part names.now.rule.now (known_in names.now) area.old) names.now.groups r area.old area.new p next dangling.old result dangling.new }
{
    let inside = word(area, p + 5);
    let entry = link_inside(area, inside, p, r + 2, names, dangling);
    close_group(area, p, next, r, entry);
    p + 4
}

// A repeat: its body goes on at its loop.
#[inline(never)]
#[cycle(link_alternation_link_branches_link_chain_link_group_link_inside_link_part_link_plain_link_repeat)]
fn link_repeat(
    area: &mut [u32],
    p: usize,
    next: usize,
    r: usize,
    names: &NameTable<'_>,
    dangling: &mut Option<usize>,
) -> usize
    requires { Stands (Part names.now.rule.now (known_in names.now) area.old) names.now.groups r area.old p × (next ≤ rule_area_need) × (get_or area.old p 0 ≡ 7) }
    ensures { Links (Part names.now.rule.now (known_in names.now) area.old) names.now.groups r area.old area.new p next dangling.old result dangling.new }
{
    let body = word(area, p + 6);
    let kind = entry_kind(area, p, body);
    let entry = link_part(area, body, p + 1, r + 2, names, dangling);
    close_repeat(area, p, kind, next, r, entry);
    p
}

// A group that does not capture: its node is passed over.
#[inline(never)]
#[cycle(link_alternation_link_branches_link_chain_link_group_link_inside_link_part_link_plain_link_repeat)]
fn link_plain(
    area: &mut [u32],
    p: usize,
    next: usize,
    r: usize,
    names: &NameTable<'_>,
    dangling: &mut Option<usize>,
) -> usize
    requires { Stands (Part names.now.rule.now (known_in names.now) area.old) names.now.groups r area.old p × (next ≤ rule_area_need) × (get_or area.old p 0 ≡ 10) }
    ensures { Links (Part names.now.rule.now (known_in names.now) area.old) names.now.groups r area.old area.new p next dangling.old result dangling.new }
{
    let inside = word(area, p + 2);
    link_inside(area, inside, next, r, names, dangling)
}

// What stands in a group, its last part or branch at p.
#[cycle(link_alternation_link_branches_link_chain_link_group_link_inside_link_part_link_plain_link_repeat)]
fn link_inside(
    area: &mut [u32],
    p: usize,
    next: usize,
    r: usize,
    names: &NameTable<'_>,
    dangling: &mut Option<usize>,
) -> usize
    requires { Stands (Inside names.now.rule.now (known_in names.now) area.old) names.now.groups r area.old p × (next ≤ rule_area_need) }
    ensures { Links (Inside names.now.rule.now (known_in names.now) area.old) names.now.groups r area.old area.new p next dangling.old result dangling.new }
{
    if p == 0 {
        return next;
    }
    if area[p] == LAST {
        return link_alternation(area, p, next, r, names, dangling);
    }
    link_chain(area, p, next, r, names, dangling)
}

// A sequence, from its last part to its first: each part goes on at the one after it. The loop is no iterator over the parts: that would hold the
// area, which is written to meanwhile.
#[cycle(link_alternation_link_branches_link_chain_link_group_link_inside_link_part_link_plain_link_repeat)]
fn link_chain(
    area: &mut [u32],
    last: usize,
    next: usize,
    r: usize,
    names: &NameTable<'_>,
    dangling: &mut Option<usize>,
) -> usize
    requires { Stands (Chain names.now.rule.now (known_in names.now) area.old) names.now.groups r area.old last × (next ≤ rule_area_need) }
    ensures { Links (Chain names.now.rule.now (known_in names.now) area.old) names.now.groups r area.old area.new last next dangling.old result dangling.new }
{
    let mut p = last;
    let mut pc = next;
    while p != 0 {
        let before = before_of(area, p);
        pc = link_part(area, p, pc, r, names, dangling);
        p = before;
    }
    pc
}

// An alternation, whose last branch stands at p.
#[cycle(link_alternation_link_branches_link_chain_link_group_link_inside_link_part_link_plain_link_repeat)]
fn link_alternation(
    area: &mut [u32],
    p: usize,
    next: usize,
    r: usize,
    names: &NameTable<'_>,
    dangling: &mut Option<usize>,
) -> usize
    requires { Stands (Inside names.now.rule.now (known_in names.now) area.old) names.now.groups r area.old p × (next ≤ rule_area_need) × (1 ≤ p) × (get_or area.old p 0 ≡ 6) }
    ensures { Links (Inside names.now.rule.now (known_in names.now) area.old) names.now.groups r area.old area.new p next dangling.old result dangling.new }
{
    let inside = word(area, p + 1);
    let before = word(area, p + 2);
    let entry = link_chain(area, inside, next, r, names, dangling);
    put_two(area, p + 1, entry, 0);
    link_branches(area, before, p, next, r, names, dangling)
}

// Branches, from the latest to the first: each falls back on the one after it, the latest on the branch at `other`. The area is written to here too.
#[cycle(link_alternation_link_branches_link_chain_link_group_link_inside_link_part_link_plain_link_repeat)]
fn link_branches(
    area: &mut [u32],
    last: usize,
    other: usize,
    next: usize,
    r: usize,
    names: &NameTable<'_>,
    dangling: &mut Option<usize>,
) -> usize
    requires { StandAll names.now.rule.now (known_in names.now) names.now.groups r area.old last × (other ≤ rule_area_need) × (next ≤ rule_area_need) }
    ensures { LinksAll names.now.rule.now (known_in names.now) names.now.groups r area.old area.new last other next dangling.old result dangling.new }
{
    let mut p = last;
    let mut after = other;
    while p != 0 {
        let inside = word(area, p + 1);
        let before = word(area, p + 2);
        let entry = link_chain(area, inside, next, r, names, dangling);
        put_two(area, p + 1, entry, after);
        after = p;
        p = before;
    }
    after
}

// A whole rule, whose inside the first pass left: the end stands at position 0. The registers of groups and repeats begin behind the captures. The
// table has the names of its groups. What is answered is where the rule begins, or the first reference to no group.
pub fn link(
    rule: &[u8],
    area: &mut [u32],
    inside: usize,
    groups: u32,
    table: &[u32],
) -> Result<u32, Refusal>
    requires { Linkable rule.now groups table.now area.old inside }
    ensures { LinksWhole rule.now groups table.now area.old area.new inside result }
{
    let names = NameTable {
        rule,
        table,
        groups: groups as usize,
    };
    let mut dangling = None;
    let entry = link_inside(area, inside, 0, SPANS_LENGTH, &names, &mut dangling);
    match dangling {
        Some(place) => Err(Refusal::at(place, Reason::NoSuchGroup)),
        None => Ok(entry as u32),
    }
}
