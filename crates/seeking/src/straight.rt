// A start that fails on its straight way, seen without the machine.
//
// The way leads from the rule's first node over byte items, assertions and openings of groups, as long as each of them holds. Nothing is left to try on it,
// so that a node that fails there ends the start, after as many steps as there were nodes. Where nearly every byte can begin a rule, or where it begins
// with `\b`, most starts end so, and to make the machine ready for each would take longer than its steps.
ghost use Rattle.std.specs.Prelude.{◌≡◌, ◌+◌, ◌≤◌, ◌<◌, ◌^◌, length, get_or};
ghost use Rattle.openings.specs.Failing.{Fails};
ghost use Rattle.seeking.specs.Straight.{Means};

use nodes::assertion_holds;
use syntax::node::{ASSERTION, BRANCH, BYTE, NODE_LENGTH, OPEN, RUN};

// How many nodes of a straight way are looked at. A start that fails mostly does so at the first few, and all that is looked at of another is walked again.
const LOOKS: u32 = 5;

// What is seen of a node at a position: it fails after so many steps; or it is one step on the way to another node and position; or it is no node of a
// straight way.
#[derive(Clone, Copy, Debug, PartialEq, Eq)]
pub enum Seen {
    Missed(u32),
    Next(u32, u32),
    Unknown,
}

// A byte item.
fn look_at_byte(code: &[u32], sub: &[u8], pc: usize, at: u32) -> Seen
    requires { (pc + 11 ≤ length code.now) × (get_or code.now pc 0 ≡ 0) × (length sub.now < 2 ^ 32) }
    ensures { Means code.now sub.now pc at result }
{
    let i = at as usize;
    if sub.len() <= i {
        return Seen::Missed(1);
    }
    if charset::contains(code, pc + 3, sub[i]) {
        return Seen::Next(code[pc + 1], at + 1);
    }
    Seen::Missed(1)
}

// A run that owes a round, and so a byte. Where the byte is there, the run has ends to go back to, and its way is not straight.
fn look_at_run(code: &[u32], sub: &[u8], pc: usize, at: u32) -> Seen
    requires { (pc + 11 ≤ length code.now) × (get_or code.now pc 0 ≡ 10) }
    ensures { Means code.now sub.now pc at result }
{
    if code[pc + 2] == 0 {
        return Seen::Unknown;
    }
    if code[pc + 3] == 0 {
        return Seen::Unknown;
    }
    let body = code[pc + 6] as usize;
    if code.len() < body + NODE_LENGTH {
        return Seen::Unknown;
    }
    let i = at as usize;
    if sub.len() <= i {
        return Seen::Missed(2);
    }
    if charset::contains(code, body + 3, sub[i]) {
        return Seen::Unknown;
    }
    Seen::Missed(2)
}

// The node at `pc`. What is read is tested here, so that nothing is asked of the code.
fn look(code: &[u32], sub: &[u8], pc: u32, at: u32) -> Seen
    requires { length sub.now < 2 ^ 32 }
    ensures { Means code.now sub.now pc at result }
{
    let node = pc as usize;
    if code.len() < node + NODE_LENGTH {
        return Seen::Unknown;
    }
    let kind = code[node];
    if kind == BYTE {
        return look_at_byte(code, sub, node, at);
    }
    if kind == ASSERTION {
        if assertion_holds(sub, code[node + 3], at as usize) {
            return Seen::Next(code[node + 1], at);
        }
        return Seen::Missed(1);
    }
    if kind == OPEN {
        return Seen::Next(code[node + 1], at);
    }
    if kind == RUN {
        return look_at_run(code, sub, node, at);
    }
    Seen::Unknown
}

// The steps after which the start at `begin` fails on its straight way, seen by so many looks at most; 0 where it is not seen to. The first start of a line is not
// looked at: many rules match there or nowhere, and a look would be for nothing.
pub fn fails_soon(code: &[u32], sub: &[u8], entry: u32, begin: u32, looks: u32) -> u32
    requires { length sub.now < 2 ^ 32 }
    ensures { 1 ≤ result → (result ≤ looks) × Fails code.now sub.now begin entry result }
{
    if begin == 0 {
        return 0;
    }
    let mut pc = entry;
    let mut at = begin;
    let mut left = looks;
    while 0 < left {
        match look(code, sub, pc, at) {
            Seen::Missed(steps) => {
                if left < steps {
                    return 0;
                }
                return looks - left + steps;
            }
            Seen::Next(next, there) => {
                pc = next;
                at = there;
                left -= 1;
            }
            Seen::Unknown => return 0,
        }
    }
    0
}

// How many nodes of the straight way are looked at from each start, within the budget. A rule that begins with branches has no straight way, and one that begins with
// a run has it only where the run's byte is missing, which is known of a start that was not passed over.
pub fn looks_at(code: &[u32], entry: u32, budget: u32) -> u32
    ensures { result ≤ budget }
{
    let node = entry as usize;
    if code.len() <= node {
        return 0;
    }
    match code[node] {
        BRANCH => 0,
        RUN => 0,
        _ => LOOKS.min(budget),
    }
}
