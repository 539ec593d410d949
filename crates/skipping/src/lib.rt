// Passing over starts that cannot begin: those whose byte is not in the set that `openings` finds. Each costs its known steps, and a look at its byte.
#![tactic(auto)]

ghost use Rattle.std.specs.Prelude.{◌≡◌, ◌+◌, ◌-◌, ◌*◌, ◌≤◌, ◌<◌, ◌^◌, length};
ghost use Rattle.syntax.specs.Limits.{subject_limit};
ghost use Rattle.skipping.specs.Passing.{Passed, Misses};

// Which of the four bytes from `at` on is the first that is in the set, or 4. Four looks in a row nearly halve the time of a skipped byte.
fn nearby(set: &[u32; 8], subject: &[u8], at: usize) -> usize
    requires { at + 4 ≤ length subject.now }
    ensures { (result ≤ 4) × Misses set.now subject.now at (at + result) }
{
    if charset::contains(set, 0, subject[at]) {
        return 0;
    }
    if charset::contains(set, 0, subject[at + 1]) {
        return 1;
    }
    if charset::contains(set, 0, subject[at + 2]) {
        return 2;
    }
    if charset::contains(set, 0, subject[at + 3]) {
        return 3;
    }
    4
}

// From `at` on, by fours: where a byte of the set is, or where fewer than four are left.
fn skip_fours(set: &[u32; 8], subject: &[u8], at: usize) -> usize
    requires { at ≤ length subject.now }
    ensures { (at ≤ result) × (result ≤ length subject.now) × Misses set.now subject.now at result }
{
    let end = subject.len();
    let mut i = at;
    while i + 4 <= end {
        let k = nearby(set, subject, i);
        if k < 4 {
            return i + k;
        }
        i += 4;
    }
    i
}

// The same one by one, up to the subject's end.
fn skip_ones(set: &[u32; 8], subject: &[u8], at: usize) -> usize
    requires { at ≤ length subject.now }
    ensures { (at ≤ result) × (result ≤ length subject.now) × Misses set.now subject.now at result }
{
    let mut i = at;
    while i < subject.len() {
        if charset::contains(set, 0, subject[i]) {
            return i;
        }
        i += 1;
    }
    i
}

// The first start from `begin` on that can begin, or the subject's end; `begin` itself if nothing is known. The start at the end is never passed
// over: the caller walks it.
fn skip_starts(set: &[u32; 8], any: bool, cost: u32, subject: &[u8], begin: u32) -> u32
    requires { (begin ≤ length subject.now + 1) × (length subject.now < 2 ^ 31) }
    ensures { Passed set.now any subject.now cost begin result }
{
    if cost == 0 {
        return begin;
    }
    let end = subject.len();
    let at = begin as usize;
    if end < at {
        return begin;
    }
    if !any {
        return end as u32;
    }
    let near = skip_fours(set, subject, at);
    skip_ones(set, subject, near) as u32
}

// A start, and the steps of those before it.
#[derive(Clone, Copy, Debug, PartialEq, Eq)]
pub struct Onward {
    pub start: u32,
    pub steps: u64,
}

// The first start from `begin` on that may begin. Those between cost their known steps.
pub fn pass_starts(
    set: &[u32; 8],
    any: bool,
    cost: u32,
    subject: &[u8],
    begin: u32,
    steps: u64,
) -> Onward
    requires { (begin ≤ length subject.now + 1) × (length subject.now ≤ subject_limit) × (steps < 2 ^ 63) }
    ensures passed { Passed set.now any subject.now cost begin result.start }
    ensures steps_value { result.steps ≡ steps + (result.start - begin) * cost }
{
    let from = skip_starts(set, any, cost, subject, begin);
    let passed = (from - begin) as u64;
    Onward {
        start: from,
        steps: steps + passed * (cost as u64),
    }
}

// The next start: `begin` itself if its byte is in the set, else what `pass_starts` finds. Where nearly every byte can begin, a start costs one look at
// its byte and no call: this function is small enough that a caller's loop takes it in.
pub fn next_start(
    set: &[u32; 8],
    any: bool,
    cost: u32,
    subject: &[u8],
    begin: u32,
    steps: u64,
) -> Onward
    requires { (begin ≤ length subject.now + 1) × (length subject.now ≤ subject_limit) × (steps < 2 ^ 63) }
    ensures passed { Passed set.now any subject.now cost begin result.start }
    ensures steps_value { result.steps ≡ steps + (result.start - begin) * cost }
{
    let at = begin as usize;
    if at < subject.len() {
        if charset::contains(set, 0, subject[at]) {
            return Onward {
                start: begin,
                steps: steps,
            };
        }
    }
    pass_starts(set, any, cost, subject, begin, steps)
}
