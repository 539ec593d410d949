// Shows what the proved code makes of one rule and one line, layer by layer, in numbers. docs/write-tour lays them out for docs/TOUR.md.
//
// The input is a rule and a line, each ended by 0A. What is written, each line of it a word and numbers:
//
//   item       a position of the rule, and the one behind what the lexer reads there as an item, with the repeat behind that
//   nodes      the rule area after the first pass, as far as it is used
//   code       where the rule is entered, and the same numbers after the second pass
//   move       before each move of the walk from start 0: the node, the position in the line, and the stack, four numbers for each frame
//   missed     the place of the item that fails in that move, and where in the line
//   end        at the rule's end, the spans of its groups
//   row        the first numbers of the result area after the gateway's answer
//
// and last that answer.
#![tactic(auto)]

ghost use Rattle.std.specs.Prelude.{◌≡◌, List, ℕ, ◌+◌, ◌*◌, ◌≤◌, ◌<◌, ◌^◌, length};
ghost use Rattle.syntax.specs.Limits.{rule_limit, rule_area_need, registers};
ghost use Rattle.machine.specs.Code.{Fits};
ghost use Rattle.machine.specs.Words.{stack_of, now_of, moved_on};
ghost use Rattle.machine.specs.Ready.{StackFits};
ghost use Rattle.machine.specs.Laws.Loop.{ReadyForSome};
ghost use Rattle.reader.specs.Areas.{table_start};
ghost use Rattle.semantics.specs.Calls.{work_area_need};
ghost use Rattle.gateway_answers.specs.Limits.{gateway_budget};
ghost use Rattle.gateway_answers.specs.Promises.{Standing};

use frame::{RULE_AREA_NEED, RULE_LIMIT, SUBJECT_LIMIT, WORK_PER_STEP};
use gateway_answers::{BUDGET, prepare};
use gateway_text::ANSWER_ROOM;
use index::UNSET;
use machine::{Machine, fall_back, start};
use plain::{make_move, tell_missed};
use reader::read_rule;
use reasons::item_end;
use syntax::node::END;
use syntax::{REGISTERS, ROW_LENGTH, SPANS_LENGTH};
use text::line_end;

// What a walk is lent, as the gateway lends it.
const WORK_AREA: usize = WORK_PER_STEP * BUDGET as usize;

fn put(rt: &HostRuntime, text: &[u8]) {
    let _ = rt.write_all(text);
}

fn put_number(rt: &HostRuntime, n: u64) {
    put(rt, b" ");
    let _ = rt.print(n);
}

fn put_word(rt: &HostRuntime, n: u32) {
    put_number(rt, n as u64);
}

// The first numbers of a slice, and the end of the line.
fn put_numbers(rt: &HostRuntime, numbers: &[u32], many: usize)
    requires { many ≤ length numbers.now }
{
    let mut i = 0;
    while i < many {
        put_word(rt, numbers[i]);
        i += 1;
    }
    put(rt, b"\n");
}

// A position, and the one behind what is read there.
fn put_item(rt: &HostRuntime, at: usize, end: usize) {
    put(rt, b"item");
    put_number(rt, at as u64);
    put_number(rt, end as u64);
    put(rt, b"\n");
}

// The rule -------------------------------------------------------------------------

// What is read as an item at each position. The reader asks only at the places that the nodes keep.
fn put_items(rt: &HostRuntime, rule: &[u8]) {
    let mut at = 0;
    while at < rule.len() {
        put_item(rt, at, item_end(rule, 0, at));
        at += 1;
    }
}

// The nodes that the first pass leaves, and how many numbers they are.
fn put_nodes(rt: &HostRuntime, rule: &[u8], area: &mut [u32]) -> usize
    requires { (length rule.now ≤ rule_limit) × (table_start ≤ length area.old) }
    ensures { result ≤ length area.new }
{
    let mut table = [0u32; SPANS_LENGTH];
    let Ok(inside) = read_rule(rule, 0, area, &mut table) else {
        return 0;
    };
    let used = inside.cursor.used;
    put(rt, b"nodes");
    put_numbers(rt, area, used);
    used
}

// The walk -------------------------------------------------------------------------

// The machine before a move, and the item that fails in the move, if one does.
fn put_move(rt: &HostRuntime, code: &[u32], sub: &[u8], regs: &[u32], work: &[u32], m: Machine)
    requires regs_len { (length regs.now ≡ registers) × (length sub.now < 2 ^ 31) × (4 * m.height ≤ length work.now) }
    requires fits { Fits code.now m.pc }
{
    put(rt, b"move");
    put_number(rt, m.pc as u64);
    put_number(rt, m.at as u64);
    put_numbers(rt, work, 4 * m.height);
    if let Some(missed) = tell_missed(code, sub, regs, m) {
        put(rt, b"missed");
        put_number(rt, missed.place as u64);
        put_number(rt, missed.at as u64);
        put(rt, b"\n");
    }
}

// The next move. At the rule's end the spans are shown, and the machine falls back, as a listing has it do.
fn advance(
    rt: &HostRuntime,
    code: &[u32],
    sub: &[u8],
    regs: &mut [u32],
    work: &mut [u32],
    m: Machine,
    groups: usize,
) -> Machine
    requires regs_len { (length regs.old ≡ registers) × (2 * groups ≤ length regs.old) × (4 * m.height + 8 ≤ length work.old) × (length sub.now < 2 ^ 31) × (length code.now < 2 ^ 32) × (m.height < 2 ^ 32) }
    requires fits { Fits code.now m.pc }
    requires stack_fits { StackFits code.now (stack_of work.old m.height) }
    ensures { now_of regs.new work.new result ≡ moved_on code.now sub.now regs.old work.old m }
{
    let pc = m.pc as usize;
    if code[pc] == END {
        put(rt, b"end");
        put_numbers(rt, regs, 2 * groups);
        return fall_back(code, regs, work, m.height);
    }
    make_move(code, sub, regs, work, m, m.at)
}

// Every move of a walk, as many as the budget has steps.
fn put_walk(
    rt: &HostRuntime,
    code: &[u32],
    sub: &[u8],
    regs: &mut [u32],
    work: &mut [u32],
    m: Machine,
    budget: u32,
    groups: usize,
)
    requires regs_len { (length regs.old ≡ registers) × (2 * groups ≤ length regs.old) × (length sub.now < 2 ^ 31) × (length code.now < 2 ^ 32) }
    requires ready_for_some { ReadyForSome code.now sub.now regs.old work.old m budget }
{
    let mut head = m;
    let mut left = budget;
    while head.live {
        if left == 0 {
            return;
        }
        put_move(rt, code, sub, regs, work, head);
        head = advance(rt, code, sub, regs, work, head, groups);
        left -= 1;
    }
}

// The answer -----------------------------------------------------------------------

// The row and the line of the gateway's answer.
fn put_answer(
    rt: &HostRuntime,
    code: &[u32],
    entry: u32,
    groups: u32,
    line: &[u8],
    work_area: &mut [u32],
)
    requires { ((rule : List ℕ) × Standing rule code.now entry groups) × (length code.now ≡ rule_area_need) × (work_area_need gateway_budget ≤ length work_area.old) }
{
    let mut results = [0u32; ROW_LENGTH];
    let mut out = [0u8; ANSWER_ROOM];
    let n = gateway_answers::answer(
        code,
        entry,
        groups,
        line,
        work_area,
        &mut results,
        &mut out,
        0,
    );
    put(rt, b"row");
    put_numbers(rt, &results, 2 + 2 * groups as usize);
    put(rt, &out[..n]);
}

// The walk from start 0 by a rule that stands compiled, and the answer.
fn put_line(rt: &HostRuntime, code: &[u32], entry: u32, groups: u32, line: &[u8])
    requires { ((rule : List ℕ) × Standing rule code.now entry groups) × (length code.now ≡ rule_area_need) × (length line.now < 2 ^ 31) }
{
    let mut work_area = [0u32; WORK_AREA];
    let mut regs = [UNSET; REGISTERS];
    let m = start(entry, 0);
    put_walk(
        rt,
        code,
        line,
        &mut regs,
        &mut work_area,
        m,
        BUDGET,
        groups as usize,
    );
    put_answer(rt, code, entry, groups, line, &mut work_area);
}

// The second pass over an area of which the first used so much, and what follows.
fn put_code(rt: &HostRuntime, rule: &[u8], line: &[u8], area: &mut [u32], used: usize)
    requires { (length area.old ≡ rule_area_need) × (used ≤ length area.old) × (length line.now < 2 ^ 31) }
{
    let Ok(compiled) = prepare(rule, false, area) else {
        return;
    };
    put(rt, b"code");
    put_word(rt, compiled.entry);
    put_numbers(rt, area, used);
    put_line(rt, area, compiled.entry, compiled.groups, line);
}

// A rule and a line on their way.
fn show(rt: &HostRuntime, rule: &[u8], line: &[u8]) {
    if RULE_LIMIT < rule.len() {
        return;
    }
    if SUBJECT_LIMIT < line.len() {
        return;
    }
    put_items(rt, rule);
    let mut area = [0u32; RULE_AREA_NEED];
    let used = put_nodes(rt, rule, &mut area);
    put_code(rt, rule, line, &mut area, used);
}

// The input's first line is the rule, its second the line.
fn show_both(rt: &HostRuntime, input: &[u8]) {
    let end = line_end(input, 0);
    if input.len() <= end {
        return;
    }
    let from = end + 1;
    let to = line_end(input, from);
    show(rt, &input[..end], &input[from..to]);
}

fn main(rt: HostRuntime) {
    let mut buffer = io::large_buffer();
    let mut input = rt.stdin();
    let n = vectors::read_full(&mut input, &mut buffer);
    show_both(&rt, &buffer[..n]);
}
