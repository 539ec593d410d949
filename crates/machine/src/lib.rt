// The machine that walks a compiled rule over a subject, and falls back on what is left to try: its model and the laws of it, in `specs`, and in
// code where it stands and its stack. Crates above carry out the nodes.
//
// One node of the rule is one step of the walk, but for a run, which makes the steps of its rounds, a reference, which makes one more for each
// byte that it compares, and `\R`, which makes those of the part that it stands for. A step pushes at most two frames of four numbers, so that eight numbers a step are always room enough for the stack. Each
// change of a register is undone by a frame: when a walk has ended the registers are as they were, and nothing is cleared between starts. Falling
// back costs no step: what it takes off, steps have pushed.
//
// No index is tested at run time, here or in the crates above: each is in range by what is required, and that follows from how the rule was
// compiled.
#![tactic(auto)]

ghost use Rattle.std.specs.Prelude.{◌≡◌, List, [], ℕ};
ghost use Rattle.syntax.specs.Limits.{unset};
ghost use Rattle.machine.specs.Moves.{go};
ghost use Rattle.machine.specs.Words.{now_of};

mod stack;

pub use stack::{
    AGAIN, begin_over, begin_round, cut_to, fall_back, go_down, push, push_explore, save_and_write,
};

// What stands for the start and the end of a group that is not set, and for a repeat without a greatest number of rounds.
pub fn unset_position() -> u32
    ensures { result ≡ unset }
{
    4294967295
}

// Where the machine stands: at a node and a position, over so many frames in the work area; or, if it is not live, nothing is left to try.
#[derive(Clone, Copy, Debug, PartialEq, Eq)]
pub struct Machine {
    pub pc: u32,
    pub at: u32,
    pub height: usize,
    pub live: bool,
}

// A repeat's first register, and what its two have: the rounds made, and where the last one began.
#[derive(Clone, Copy, Debug, PartialEq, Eq)]
pub struct Counter {
    pub register: u32,
    pub rounds: u32,
    pub from: u32,
}

// How a run stopped: at the rule's end, with the steps taken and the machine there; nothing is left, after so many steps; or the steps are
// spent.
#[derive(Clone, Copy, Debug, PartialEq, Eq)]
pub enum Stop {
    End(u32, Machine),
    Nothing(u32),
    Spent,
}

// How far nodes led: the steps used, and where the machine then stands.
#[derive(Clone, Copy, Debug, PartialEq, Eq)]
pub struct Walked {
    pub used: u32,
    pub head: Machine,
}

// How a node of several steps went, a run of one byte set or a reference: made, with the steps that it took, and those of the ends that a run passed
// over; or too long for the steps that are left.
#[derive(Clone, Copy, Debug, PartialEq, Eq)]
pub enum Ran {
    Made(u32, Machine),
    TooLong,
}

// At a rule's first node, over an empty stack.
pub fn start(pc: u32, at: u32) -> Machine
    ensures { (regs work : List ℕ) → now_of regs work result ≡ go pc at regs [] }
{
    Machine {
        pc: pc,
        at: at,
        height: 0,
        live: true,
    }
}
