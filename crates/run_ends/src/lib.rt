// The bytes of a run and its ends: how many bytes it takes, what they cost, and at how many of its ends the node behind it fails at once.
//
// A run is a greedy repeat of one byte item. These are the loops over its bytes and over its ends; `runs` goes on from there.
#![tactic(auto)]

ghost use Rattle.std.specs.Prelude.{◌≡◌, List, ℕ, suc, ◌+◌, ◌-◌, ◌≤◌, ◌<◌, ◌^◌, min, length, get_or, drop, IfSome};
ghost use Rattle.charset.specs.Class.{has};
ghost use Rattle.semantics.specs.Repeats.{is_full};
ghost use Rattle.machine.specs.Code.{most_of, Fits};
ghost use Rattle.machine.specs.Moves.{extent, strides, stopped};
ghost use Rattle.machine.specs.Words.{Measured};
ghost use Rattle.machine.specs.Ready.{Missed, Asks};

use repeats::is_full;
use syntax::node::{BYTE, CLOSE, NODE_LENGTH, RUN};

// Where the bytes of a class end, from `at` on and before `stop`. The class is lent from its first word on, so that its place in the rule is added
// once for all bytes.
fn bytes_end(class: &[u32], sub: &[u8], at: usize, stop: usize) -> usize
    requires { (8 ≤ length class.now) × (stop ≤ length sub.now) }
    ensures { result ≡ at + extent sub.now (has class.now) (stop - at) at }
{
    for i in at..stop {
        if !charset::contains(class, 0, sub[i]) {
            return i;
        }
    }
    at.max(stop)
}

// How many bytes the run at `pc` takes from `at` on; or fewer, if these already take more steps than are left.
pub fn run_length(code: &[u32], sub: &[u8], pc: usize, at: u32, left: u32) -> u32
    requires { (pc + 8 ≤ length code.now) × (get_or code.now (pc + 6) 0 + 11 ≤ length code.now) × (length sub.now < 2 ^ 32) }
    ensures { Measured code.now sub.now pc at left result × (at + result < 2 ^ 32) }
{
    let most = code[pc + 3] as usize;
    let body = code[pc + 6] as usize;
    let from = at as usize;
    let few = most.min(left as usize / 2 + 1);
    let stop = (from + few).min(sub.len());
    let class = body + 3;
    let end = bytes_end(&code[class..], sub, from, stop);
    (end - from) as u32
}

// The steps of a run of `k` bytes: the decision at which it is entered, two for each byte, and one for the byte that failed.
pub fn run_steps(most: u32, k: u32) -> u64
    ensures { (place at : ℕ) → result ≡ suc (length (strides k (stopped (is_full (most_of most) k) place at))) }
{
    let n = 2 * (k as u64) + 1;
    if is_full(most, k) {
        return n;
    }
    n + 1
}

// The node at which a run goes on fails in `cost` steps where the byte is not in the set at `base`.
#[derive(Clone, Copy, Debug, PartialEq, Eq)]
pub struct Gate {
    pub cost: u32,
    pub base: usize,
}

// None where it is not known to. A byte item asks for a byte, and so does a run that owes a round: its decision is a step more. What is read is tested here, since nothing is known of a
// node that stands behind another.
fn item_gate(code: &[u32], pc: usize) -> Option<Gate>
    requires { (pc < 2 ^ 32) × (length code.now < 2 ^ 32) }
    ensures { IfSome result (λ g. (1 ≤ g.cost) × (g.cost ≤ 2) × (g.base + 8 ≤ length code.now) × ((sub : List ℕ) → Asks code.now sub pc g.cost (has (drop g.base code.now)))) }
{
    if code.len() < pc + NODE_LENGTH {
        return None;
    }
    let kind = code[pc];
    if kind == BYTE {
        return Some(Gate {
            cost: 1,
            base: pc + 3,
        });
    }
    if kind == RUN {
        let body = code[pc + 6] as usize;
        if 0 < code[pc + 2] {
            if 0 < code[pc + 3] {
                if body + NODE_LENGTH <= code.len() {
                    return Some(Gate {
                        cost: 2,
                        base: body + 3,
                    });
                }
            }
        }
    }
    None
}

// The end of a group asks for what the node behind it does: it is a step more, and what it wrote is undone when that node fails.
pub fn gate_of(code: &[u32], pc: usize) -> Option<Gate>
    requires { Fits code.now pc × (length code.now < 2 ^ 32) }
    ensures { IfSome result (λ g. (1 ≤ g.cost) × (g.cost ≤ 3) × (g.base + 8 ≤ length code.now) × ((sub : List ℕ) → Asks code.now sub pc g.cost (has (drop g.base code.now)))) }
{
    if code[pc] != CLOSE {
        return item_gate(code, pc);
    }
    let behind = code[pc + 1] as usize;
    let gate = item_gate(code, behind)?;
    Some(Gate {
        cost: gate.cost + 1,
        base: gate.base,
    })
}

// At how many positions from `high` down, of at most so many, no byte of a class stands; the class is lent as above.
pub fn missed_ends(class: &[u32], sub: &[u8], high: usize, most: usize) -> usize
    requires { (8 ≤ length class.now) × (most ≤ high + 1) }
    ensures { (result ≤ most) × Missed sub.now (has class.now) high result }
{
    for n in 0..most {
        let i = high - n;
        if i < sub.len() {
            if charset::contains(class, 0, sub[i]) {
                return n;
            }
        }
    }
    most
}
