// The walk: one step, many of them, and running to the next end.
//
// `run_to_end` stops at the rule's end, where nothing is left to try or where the steps are spent, and tells which as the rule's trace does. Before
// each step the machine is ready for all that are left. It costs what its nodes cost: nothing is looked up, copied or cleared between them.
#![tactic(auto)]

ghost use Rattle.std.specs.Prelude.{◌≡◌, List, true, ℕ, ◌+◌, ◌*◌, ◌-◌, ◌≤◌, ◌<◌, ◌^◌, length, get_or};
ghost use Rattle.syntax.specs.Limits.{registers};
ghost use Rattle.semantics.specs.Walk.{Trace};
ghost use Rattle.machine.specs.Code.{Fits};
ghost use Rattle.machine.specs.Words.{stack_of, now_of, moved_on};
ghost use Rattle.machine.specs.Ready.{until, Several, Leads, RanBy, StackFits, Ready, Agrees};

use behind::{Behind, look_behind};
use branches::take_branch;
use breaks::take_break;
use machine::{Machine, Ran, Stop, fall_back};
use marks::take_marked;
use nodes::{
    begin_last_branch, close_group, open_group, take_byte, take_reference, test_assertion,
};
use repeats::{end_round, enter_repeat};
use runs::take_run;
use syntax::node::{
    AGAIN, ASSERTION, BRANCH, BREAK, BYTE, CLOSE, END, LAST, OPEN, REFERENCE, REPEAT, RUN,
};

// Where the machine stands, and the steps that are left. They are handed on in place of those used, so that the loops keep one number and not two.
#[derive(Clone, Copy, Debug, PartialEq, Eq)]
struct Standing {
    rest: u32,
    head: Machine,
}

// One node that is no end, no run, no reference and no branch but the last; `kind` is its first number. It is for those who walk node by node.
pub fn step(
    code: &[u32],
    sub: &[u8],
    regs: &mut [u32],
    work: &mut [u32],
    kind: u32,
    m: Machine,
) -> Machine
    requires kind_value { (kind ≡ get_or code.now m.pc 0) × (kind ≤ 8) × (kind ≡ 5 → ⊥) × (length regs.old ≡ registers) × (4 * m.height + 8 ≤ length work.old) × (length sub.now < 2 ^ 32) × (length code.now < 2 ^ 32) }
    requires fits { Fits code.now m.pc }
    requires stack_fits { StackFits code.now (stack_of work.old m.height) }
    ensures { now_of regs.new work.new result ≡ moved_on code.now sub.now regs.old work.old m }
{
    match kind {
        BYTE => take_byte(code, sub, regs, work, m),
        ASSERTION => test_assertion(code, sub, regs, work, m),
        OPEN => open_group(code, regs, work, m),
        CLOSE => close_group(code, regs, work, m),
        LAST => begin_last_branch(code, m),
        REPEAT => enter_repeat(code, regs, work, m),
        _ => end_round(code, regs, work, m),
    }
}

// The same for the walk's loop alone. It stands here a second time because a function with one caller is taken into that caller: with `plain` as another, each
// such node of a walk would be a call, which takes as long as the node.
fn carry(
    code: &[u32],
    sub: &[u8],
    regs: &mut [u32],
    work: &mut [u32],
    kind: u32,
    m: Machine,
) -> Machine
    requires kind_value { (kind ≡ get_or code.now m.pc 0) × (kind ≤ 8) × (kind ≡ 5 → ⊥) × (length regs.old ≡ registers) × (4 * m.height + 8 ≤ length work.old) × (length sub.now < 2 ^ 32) × (length code.now < 2 ^ 32) }
    requires fits { Fits code.now m.pc }
    requires stack_fits { StackFits code.now (stack_of work.old m.height) }
    ensures { now_of regs.new work.new result ≡ moved_on code.now sub.now regs.old work.old m }
{
    match kind {
        BYTE => take_byte(code, sub, regs, work, m),
        ASSERTION => test_assertion(code, sub, regs, work, m),
        OPEN => open_group(code, regs, work, m),
        CLOSE => close_group(code, regs, work, m),
        LAST => begin_last_branch(code, m),
        REPEAT => enter_repeat(code, regs, work, m),
        _ => end_round(code, regs, work, m),
    }
}

// A group closes. If a round of a repeat ends behind it, that is done in the same turn, and so is the opening of a group that the next round begins with:
// where a group is repeated they follow each other, and a jump for each costs about as much as what it does.
fn leave_group(
    code: &[u32],
    sub: &[u8],
    regs: &mut [u32],
    work: &mut [u32],
    m: Machine,
    left: u32,
) -> Standing
    requires pc_value { (get_or code.now m.pc 0 ≡ 4) × (m.live ≡ true) × (3 ≤ left) × (length regs.old ≡ registers) × (length code.now < 2 ^ 32) }
    requires by_index { (first : List ℕ) × (t : Trace) × Ready code.now sub.now (length work.old) left first (now_of regs.old work.old m) t }
    ensures { (result.rest < left) × Leads code.now sub.now (now_of regs.old work.old m) (left - result.rest) (now_of regs.new work.new result.head) }
{
    let closed = close_group(code, regs, work, m);
    let one_less = left - 1;
    let alone = Standing {
        rest: one_less,
        head: closed,
    };
    let behind = closed.pc as usize;
    if code[behind] != AGAIN {
        return alone;
    }
    let ended = end_round(code, regs, work, closed);
    let two_less = left - 2;
    let both = Standing {
        rest: two_less,
        head: ended,
    };
    let next = ended.pc as usize;
    if code[next] != OPEN {
        return both;
    }
    let opened = open_group(code, regs, work, ended);
    let three_less = left - 3;
    Standing {
        rest: three_less,
        head: opened,
    }
}

// A group's end. Where it closes in vain nothing is written only to be undone: a run before it comes here once for each of its ends. Where the byte behind
// it is there, that is taken in the same turn. With fewer than three steps left it closes alone, so that none of these has to look at them.
fn end_group(
    code: &[u32],
    sub: &[u8],
    regs: &mut [u32],
    work: &mut [u32],
    m: Machine,
    left: u32,
) -> Standing
    requires pc_value { (get_or code.now m.pc 0 ≡ 4) × (m.live ≡ true) × (1 ≤ left) × (length regs.old ≡ registers) × (length sub.now < 2 ^ 32) × (length code.now < 2 ^ 32) }
    requires by_index { (first : List ℕ) × (t : Trace) × Ready code.now sub.now (length work.old) left first (now_of regs.old work.old m) t }
    ensures { (result.rest < left) × Leads code.now sub.now (now_of regs.old work.old m) (left - result.rest) (now_of regs.new work.new result.head) }
{
    if left < 3 {
        let alone = close_group(code, regs, work, m);
        let one_less = left - 1;
        return Standing {
            rest: one_less,
            head: alone,
        };
    }
    match look_behind(code, sub, regs, m) {
        Behind::Missing(steps) => {
            let fallen = fall_back(code, regs, work, m.height);
            let fewer = left - steps;
            Standing {
                rest: fewer,
                head: fallen,
            }
        }
        Behind::There => {
            let closed = close_group(code, regs, work, m);
            let taken = take_byte(code, sub, regs, work, closed);
            let two_less = left - 2;
            Standing {
                rest: two_less,
                head: taken,
            }
        }
        Behind::NoByte => leave_group(code, sub, regs, work, m, left),
    }
}

// Byte items one after the other: those whose bytes are there, and those that are fallen back to. They need no jump of the kind. A last branch that is fallen
// back to begins here: a fourth kind beside the three of `advance` would make the compiler jump by a table, which costs each of them more.
fn take_bytes(
    code: &[u32],
    sub: &[u8],
    regs: &mut [u32],
    work: &mut [u32],
    m: Machine,
    left: u32,
) -> Standing
    requires pc_value { (get_or code.now m.pc 0 ≡ 0) × (m.live ≡ true) × (1 ≤ left) × (length regs.old ≡ registers) × (length sub.now < 2 ^ 32) × (length code.now < 2 ^ 32) }
    requires by_index { (first : List ℕ) × (t : Trace) × Ready code.now sub.now (length work.old) left first (now_of regs.old work.old m) t }
    ensures { (result.rest < left) × Leads code.now sub.now (now_of regs.old work.old m) (left - result.rest) (now_of regs.new work.new result.head) }
{
    let mut rest = left;
    let mut head = Machine {
        pc: m.pc,
        at: m.at,
        height: m.height,
        live: m.live,
    };
    loop {
        let next = take_byte(code, sub, regs, work, head);
        rest -= 1;
        let there = Standing {
            rest: rest,
            head: next,
        };
        if !next.live {
            return there;
        }
        if rest == 0 {
            return there;
        }
        let pc = next.pc as usize;
        let kind = code[pc];
        if kind == LAST {
            let body = begin_last_branch(code, next);
            let one_less = rest - 1;
            return Standing {
                rest: one_less,
                head: body,
            };
        }
        if kind != BYTE {
            return there;
        }
        head = next;
    }
}

// One node that makes one step and is no end, or those that are taken together.
fn advance(
    code: &[u32],
    sub: &[u8],
    regs: &mut [u32],
    work: &mut [u32],
    kind: u32,
    m: Machine,
    left: u32,
) -> Standing
    requires kind_value { (kind ≡ get_or code.now m.pc 0) × (kind ≤ 8) × (m.live ≡ true) × (1 ≤ left) × (length regs.old ≡ registers) × (length sub.now < 2 ^ 32) × (length code.now < 2 ^ 32) }
    requires by_index { (first : List ℕ) × (t : Trace) × Ready code.now sub.now (length work.old) left first (now_of regs.old work.old m) t }
    ensures { (result.rest < left) × Leads code.now sub.now (now_of regs.old work.old m) (left - result.rest) (now_of regs.new work.new result.head) }
{
    if kind == BYTE {
        return take_bytes(code, sub, regs, work, m, left);
    }
    if kind == CLOSE {
        return end_group(code, sub, regs, work, m, left);
    }
    if kind == BRANCH {
        let on = take_branch(code, sub, work, m, left);
        let there = on.head;
        let fewer = left - on.used;
        return Standing {
            rest: fewer,
            head: there,
        };
    }
    let own = Machine {
        pc: m.pc,
        at: m.at,
        height: m.height,
        live: m.live,
    };
    let next = carry(code, sub, regs, work, kind, own);
    let rest = left - 1;
    Standing {
        rest: rest,
        head: next,
    }
}

// Walks on until it comes to an end or a node above it, the steps are used or nothing is left. It is a loop of its own, apart from these, so that
// the compiler keeps in registers what each step needs. The steps are counted down, since one number is then enough, and the machine is made
// anew from its fields wherever it is kept, here and in `run_to_end`, so that the seven bytes which only fill it up are not carried along: they would be
// copied as two words that overlap, and each such copy waits until the stores of the one before it are done. That took half of a short walk's time. It is
// also made anew before `carry` and `take_marked`, of which the second is really called: what is lent to a call stands in memory, and would be written there at each turn,
// whatever its kind.
fn walk(
    code: &[u32],
    sub: &[u8],
    regs: &mut [u32],
    work: &mut [u32],
    m: Machine,
    left: u32,
) -> Standing
    requires live_value { (m.live ≡ true) × (get_or code.now m.pc 0 ≤ 8) × (1 ≤ left) × (length regs.old ≡ registers) × (length sub.now < 2 ^ 32) × (length code.now < 2 ^ 32) }
    requires by_index { (first : List ℕ) × (t : Trace) × Ready code.now sub.now (length work.old) left first (now_of regs.old work.old m) t }
    ensures { (result.rest < left) × Leads code.now sub.now (now_of regs.old work.old m) (left - result.rest) (now_of regs.new work.new result.head) }
{
    let mut rest = left;
    let mut head = Machine {
        pc: m.pc,
        at: m.at,
        height: m.height,
        live: m.live,
    };
    while head.live {
        if rest == 0 {
            return Standing {
                rest: rest,
                head: head,
            };
        }
        let pc = head.pc as usize;
        let kind = code[pc];
        if 8 < kind {
            return Standing {
                rest: rest,
                head: head,
            };
        }
        let on = advance(code, sub, regs, work, kind, head, rest);
        rest = on.rest;
        let next = on.head;
        head = Machine {
            pc: next.pc,
            at: next.at,
            height: next.height,
            live: next.live,
        };
    }
    Standing {
        rest: rest,
        head: head,
    }
}

// A node above the end's number: a run, a reference or `\R`, which make several steps, if those that are left are enough; or one of a held part or of looking
// ahead, which makes one.
fn take_several(
    code: &[u32],
    sub: &[u8],
    regs: &mut [u32],
    work: &mut [u32],
    kind: u32,
    m: Machine,
    left: u32,
) -> Ran
    requires kind_value { (kind ≡ get_or code.now m.pc 0) × (m.live ≡ true) × (1 ≤ left) × (length regs.old ≡ registers) × (length sub.now < 2 ^ 32) × (length code.now < 2 ^ 32) }
    requires several { Several kind }
    requires by_index { (first : List ℕ) × (t : Trace) × Ready code.now sub.now (length work.old) left first (now_of regs.old work.old m) t }
    ensures { RanBy code.now sub.now (now_of regs.old work.old m) left regs.new work.new result }
{
    if kind == RUN {
        return take_run(code, sub, regs, work, m, left);
    }
    if kind == REFERENCE {
        return take_reference(code, sub, regs, work, m, left);
    }
    if kind == BREAK {
        return take_break(code, sub, regs, work, m, left);
    }
    let own = Machine {
        pc: m.pc,
        at: m.at,
        height: m.height,
        live: m.live,
    };
    let next = take_marked(code, regs, work, kind, own);
    Ran::Made(1, next)
}

// Walks on to the next end, within `budget` steps. To go on after an end, fall back and call again.
pub fn run_to_end(
    code: &[u32],
    sub: &[u8],
    regs: &mut [u32],
    work: &mut [u32],
    m: Machine,
    budget: u32,
) -> Stop
    requires regs_len { (length regs.old ≡ registers) × (length sub.now < 2 ^ 32) × (length code.now < 2 ^ 32) }
    requires by_index { (first : List ℕ) × (t : Trace) × Ready code.now sub.now (length work.old) budget first (now_of regs.old work.old m) t }
    ensures { (first : List ℕ) (t : Trace) → Ready code.now sub.now (length work.old) budget first (now_of regs.old work.old m) t
        → Agrees code.now sub.now (length work.old) budget first regs.new work.new (until budget 0 t) result }
{
    let mut rest = budget;
    let mut head = Machine {
        pc: m.pc,
        at: m.at,
        height: m.height,
        live: m.live,
    };
    while head.live {
        if rest == 0 {
            return Stop::Spent;
        }
        let pc = head.pc as usize;
        let kind = code[pc];
        if 8 < kind {
            if kind == END {
                return Stop::End(budget - rest + 1, head);
            }
            let Ran::Made(n, made) = take_several(code, sub, regs, work, kind, head, rest) else {
                return Stop::Spent;
            };
            rest -= n;
            head = Machine {
                pc: made.pc,
                at: made.at,
                height: made.height,
                live: made.live,
            };
            continue;
        }
        let w = walk(code, sub, regs, work, head, rest);
        rest = w.rest;
        let next = w.head;
        head = Machine {
            pc: next.pc,
            at: next.at,
            height: next.height,
            live: next.live,
        };
    }
    Stop::Nothing(budget - rest)
}
