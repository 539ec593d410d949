// The set of bytes that a rule can begin with, and the steps of a start that cannot.
ghost use Rattle.std.specs.Prelude.{◌≡◌, List, ℕ, ◌+◌, ◌≤◌, ◌<◌, ◌^◌, length, drop};
ghost use Rattle.charset.specs.Class.{has};
ghost use Rattle.openings.specs.Openings.{Opens};
ghost use Rattle.openings.specs.Failing.{counted, pushed, Widened, Told, Turned};

use crate::Opening;
use crate::nodes::{Seen, look};

// How many nodes may wait, and how many are looked at, before the rule is given up. A chain of branches needs two of the first, however long
// it is, since the rest of it waits as one node: only nesting adds to them.
const PENDING: usize = 16;

const NODES: u32 = 128;

// With fewer starts than these the set would cost more than it saves.
const FEW: usize = 16;

// The nodes still to look at, the topmost first; the steps counted so far; and the bytes that begin, if there are any.
#[derive(Clone, Copy, Debug, PartialEq, Eq)]
pub struct Search {
    pub pending: [u32; PENDING],
    pub height: usize,
    pub cost: u32,
    pub any: bool,
    pub set: [u32; 8],
}

// The class in the eight words from `base` on.
fn class_at(code: &[u32], base: usize) -> [u32; 8]
    requires { base + 8 ≤ length code.now }
    ensures { (x : ℕ) → x < 256 → has result x ≡ has (drop base code.now) x }
{
    let mut class = [0; 8];
    for i in 0..8 {
        let word = code[base + i];
        class[i] = word;
    }
    class
}

// The topmost node is done, and its steps are counted.
fn count(search: Search, cost: u32) -> Search
    requires { (1 ≤ search.height) × (search.cost + cost < 2 ^ 32) }
    ensures { result ≡ counted search cost }
{
    let mut s = search;
    s.height -= 1;
    s.cost += cost;
    s
}

// A node more is to be looked at, before those that wait.
fn push(search: Search, pc: u32) -> Search
    requires { search.height < 16 }
    ensures { result ≡ pushed search pc }
{
    let mut s = search;
    s.pending[s.height] = pc;
    s.height += 1;
    s
}

// The bytes of a class begin too.
fn widen(code: &[u32], search: Search, base: usize) -> Search
    requires { base + 8 ≤ length code.now }
    ensures { Widened code.now search base result }
{
    let mut s = search;
    let more = class_at(code, base);
    s.set = charset::add_class(s.set, more);
    s.any = true;
    s
}

// The topmost node is looked at, and those that it leads to take its place, if all that is needed is known.
fn turn(code: &[u32], search: Search) -> Option<Search>
    requires { (1 ≤ search.height) × (search.height ≤ 16) × (search.cost + 2 < 2 ^ 32) }
    ensures { Turned code.now search result }
{
    let h = search.height - 1;
    if PENDING < h + 2 {
        return None;
    }
    let seen = look(code, search.pending[h])?;
    match seen {
        Seen::Leaf(cost) => Some(count(search, cost)),
        Seen::Byte(cost, base) => Some(widen(code, count(search, cost), base)),
        Seen::On(cost, next) => Some(push(count(search, cost), next)),
        Seen::Both(cost, first, second) => { Some(push(push(count(search, cost), second), first)) }
        Seen::ByteOn(cost, base, next) => {
            Some(push(widen(code, count(search, cost), base), next))
        }
    }
}

// No set: every start is to be walked. All bytes are in it, so that a look at a start's byte settles that too.
fn nothing_known() -> Opening
    ensures { result.cost ≡ 0 }
{
    Opening {
        cost: 0,
        any: true,
        set: [u32::MAX; 8],
    }
}

// The first node is to be looked at, and nothing is counted.
fn begin(entry: u32) -> Search
    ensures { (result.cost ≡ 0) × ((p : List ℕ) → Told p entry result) }
{
    let mut pending = [0; PENDING];
    pending[0] = entry;
    Search {
        pending,
        height: 1,
        cost: 0,
        any: false,
        set: charset::empty(),
    }
}

// The opening of a rule for a caller that has so many starts before it.
pub fn find_opening(code: &[u32], entry: u32, budget: u32, starts: usize) -> Opening
    requires { length code.now < 2 ^ 32 }
    ensures { Opens code.now entry budget result }
{
    if starts < FEW {
        return nothing_known();
    }
    let mut s = begin(entry);
    let mut left = NODES;
    while s.height > 0 {
        if left == 0 {
            return nothing_known();
        }
        left -= 1;
        let Some(next) = turn(code, s) else {
            return nothing_known();
        };
        s = next;
    }
    if s.cost > budget {
        return nothing_known();
    }
    if s.cost == 0 {
        return nothing_known();
    }
    let set = s.set;
    Opening {
        cost: s.cost,
        any: s.any,
        set,
    }
}
