// What a node does on a walk in which every byte fails.
ghost use Rattle.std.specs.Prelude.{◌≡◌, ◌+◌, ◌≤◌, length, get_or};
ghost use Rattle.openings.specs.Failing.{Sees, Means};

use syntax::node::{ASSERTION, BRANCH, BYTE, CLOSE, LAST, NODE_LENGTH, OPEN, REPEAT, RUN};

// The assertion that holds at the text's start only.
const TEXT_START: u32 = 0;

// What is known of a node on such a walk. The first number is the steps that it makes.
#[derive(Clone, Copy, Debug, PartialEq, Eq)]
pub enum Seen {
    // It fails then, at any position from 1 on.
    Leaf(u32),
    // It fails then, if the byte is not in the class whose eight words stand there.
    Byte(u32, usize),
    // Then it does as the node there does.
    On(u32, u32),
    // Then it does as the first node does and, when that has failed, as the second does.
    Both(u32, u32, u32),
    // Then it does as the node does, if the byte is not in the class.
    ByteOn(u32, usize, u32),
}

// A repeat as it is entered: a round is owed, or none may be made, or the greed says which way comes first.
fn look_at_repeat(code: &[u32], pc: usize) -> Seen
    requires { (pc + 11 ≤ length code.now) × (get_or code.now pc 0 ≡ 7) }
    ensures { Sees code.now pc result }
{
    let body = code[pc + 6];
    let next = code[pc + 7];
    if code[pc + 2] > 0 {
        return Seen::On(1, body);
    }
    if code[pc + 3] == 0 {
        return Seen::On(1, next);
    }
    if code[pc + 4] == 0 {
        return Seen::Both(1, body, next);
    }
    Seen::Both(1, next, body)
}

// What is known of a run, if anything is. It takes no byte: that it is entered is a step, and the byte that fails another. It falls back if it owes a round, else it goes on.
fn look_at_run(code: &[u32], pc: usize) -> Option<Seen>
    requires { (pc + 11 ≤ length code.now) × (get_or code.now pc 0 ≡ 10) }
    ensures { Means code.now pc result }
{
    let least = code[pc + 2];
    let most = code[pc + 3];
    let body = code[pc + 6] as usize;
    let next = code[pc + 7];
    if code.len() < body + NODE_LENGTH {
        return None;
    }
    if most == 0 {
        if least > 0 {
            return None;
        }
        return Some(Seen::On(1, next));
    }
    if least > 0 {
        return Some(Seen::Byte(2, body + 3));
    }
    Some(Seen::ByteOn(2, body + 3, next))
}

// What is known of the node at `at`, if anything is. It is no hot path, so that it tests itself what it reads, and asks nothing of the code.
pub fn look(code: &[u32], at: u32) -> Option<Seen>
    ensures { Means code.now at result }
{
    let pc = at as usize;
    if code.len() < pc + NODE_LENGTH {
        return None;
    }
    match code[pc] {
        BYTE => Some(Seen::Byte(1, pc + 3)),
        ASSERTION => {
            if code[pc + 3] != TEXT_START {
                return None;
            }
            Some(Seen::Leaf(1))
        }
        OPEN => Some(Seen::On(1, code[pc + 1])),
        CLOSE => Some(Seen::On(1, code[pc + 1])),
        BRANCH => Some(Seen::Both(1, code[pc + 1], code[pc + 2])),
        LAST => Some(Seen::On(1, code[pc + 1])),
        REPEAT => Some(look_at_repeat(code, pc)),
        RUN => look_at_run(code, pc),
        _ => None,
    }
}
