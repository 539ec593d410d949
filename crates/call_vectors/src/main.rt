// Runs the public calls and writes what they answer, with the rows.
//
// A line of input has ten words or more: the kind, 0 for a match, 1 for a listing, 2 for an explanation, 3 for successive matches, 4 for a day's lines and 5
// for the check of a proposed reading; the flags, the budget and the lengths of the rule area, the work area, the result area (or of the marks) and the name
// index in decimal; the rule; what is proposed, which only a check looks at; and the subject in pieces, one behind another. The rule, what is proposed and each
// piece are in hex, or 'x' and a count for so many bytes `a`.
// Behind an answer and its rows, or the parts of its lines, the entries of the name index follow that are not all 00, and then why a line does not fit.
#![tactic(auto)]

ghost use Rattle.std.specs.Prelude.{◌≤◌, length};

use batching::PART_LENGTH;
use checking::Verdict;
use explaining::Explanation;
use failures::Failed;
use frame::NAME_INDEX_NEED;
use index::{ROW_LENGTH, UNSET};
use listing::Listing;
use matching::Outcome;
use syntax::{NAME_ENTRY, Refusal};
use vectors::{cut, decode, put, put_refused};

// The calls.
#[derive(Clone, Copy, Debug, PartialEq, Eq)]
enum Call {
    Match,
    List,
    Explain,
    Scan,
    Batch,
    Check,
}

// Any number that is no call's is a listing's.
impl From<u32> for Call {
    fn from(kind: u32) -> Call {
        match kind {
            0 => Call::Match,
            2 => Call::Explain,
            3 => Call::Scan,
            4 => Call::Batch,
            5 => Call::Check,
            _ => Call::List,
        }
    }
}

// One byte more than a rule may have.
const RULE_ROOM: usize = frame::RULE_LIMIT + 1;

// More choices than any line of input proposes.
const PROPOSAL_ROOM: usize = 100;

// Two lines with one byte more than a line may have, and some bytes around them.
const SUBJECT_ROOM: usize = 2 * (frame::SUBJECT_LIMIT + 1) + 1000;

// What is lent to all calls.
const RULE_AREA: usize = frame::RULE_AREA_NEED;

const WORK_AREA: usize = frame::WORK_PER_STEP * frame::BUDGET_LIMIT as usize;

const RESULT_AREA: usize = 100 * ROW_LENGTH;

const NAMES: usize = NAME_INDEX_NEED + 56;

// The groups that a rule can have.
const GROUPS: usize = syntax::GROUP_LIMIT as usize;

// Greater numbers of a line are held at this.
const MOST: u32 = 2000000;

// How a call ended, and its steps.
fn say_steps(rt: &HostRuntime, ending: &str, steps: u64) {
    put(rt, ending);
    put(rt, steps);
    put(rt, " steps\n");
}

// The start at which a call was exhausted, and its steps.
fn say_exhausted(rt: &HostRuntime, start: u32, steps: u64) {
    put(rt, "exhausted at ");
    put(rt, start);
    say_steps(rt, " ", steps);
}

// What a call tells where it is not refused.
trait Told {
    // A line that says how it ended.
    fn say(&self, rt: &HostRuntime);

    // How many rows it wrote.
    fn rows(&self) -> usize;
}

impl Told for Outcome {
    fn say(&self, rt: &HostRuntime) {
        match self {
            Outcome::Matched(steps) => say_steps(rt, "matched ", *steps),
            Outcome::NotMatched(steps) => say_steps(rt, "not matched ", *steps),
            Outcome::Exhausted(start, steps) => say_exhausted(rt, *start, *steps),
            Outcome::Refused(f) => put_refused(rt, *f),
        }
    }

    fn rows(&self) -> usize {
        match self {
            Outcome::Matched(_) => 1,
            _ => 0,
        }
    }
}

impl Told for Listing {
    fn say(&self, rt: &HostRuntime) {
        match self {
            Listing::Complete(_, steps) => say_steps(rt, "complete ", *steps),
            Listing::Full(_, steps) => say_steps(rt, "full ", *steps),
            Listing::Exhausted(start, _, steps) => say_exhausted(rt, *start, *steps),
        }
    }

    fn rows(&self) -> usize {
        match self {
            Listing::Complete(rows, _) => *rows,
            Listing::Full(rows, _) => *rows,
            Listing::Exhausted(_, rows, _) => *rows,
        }
    }
}

impl Told for Verdict {
    fn say(&self, rt: &HostRuntime) {
        match self {
            Verdict::Reading(steps) => say_steps(rt, "a reading ", *steps),
            Verdict::Nothing(steps) => say_steps(rt, "no reading ", *steps),
            Verdict::Exhausted(start, steps) => say_exhausted(rt, *start, *steps),
        }
    }

    fn rows(&self) -> usize {
        match self {
            Verdict::Reading(_) => 1,
            _ => 0,
        }
    }
}

impl Told for Explanation {
    fn say(&self, rt: &HostRuntime) {
        match self {
            Explanation::Matched(steps) => say_steps(rt, "matched ", *steps),
            Explanation::NotMatched(steps, _, _) => say_steps(rt, "not matched ", *steps),
            Explanation::Exhausted(start, steps) => say_exhausted(rt, *start, *steps),
        }
    }

    fn rows(&self) -> usize {
        0
    }
}

// The spans that are set of a row's groups.
fn put_spans(rt: &HostRuntime, spans: &[u32]) {
    for (group, span) in (1..=GROUPS).zip(spans.chunks_exact(2)) {
        if let [from, to] = span {
            if *from != UNSET {
                put(rt, " ");
                put(rt, group);
                put(rt, ":");
                put(rt, *from);
                put(rt, "-");
                put(rt, *to);
            }
        }
    }
}

// The first rows: start, end and the spans that are set.
fn put_rows(rt: &HostRuntime, results: &[u32], rows: usize) {
    for row in results.chunks_exact(ROW_LENGTH).take(rows) {
        if let [start, end, spans @ ..] = row {
            put(rt, "  ");
            put(rt, *start);
            put(rt, " ");
            put(rt, *end);
            put_spans(rt, spans);
            put(rt, "\n");
        }
    }
}

// Whether all bytes are 00.
fn is_clear(bytes: &[u8]) -> bool {
    bytes.iter().all(|b| *b == 0)
}

// The entries that are not all 00, each with its group, on one line; no line where there is none.
fn put_names(rt: &HostRuntime, names: &[u8]) {
    let Some(index) = names.get(..NAME_INDEX_NEED) else {
        return;
    };
    if is_clear(index) {
        return;
    }
    put(rt, "  names");
    for (group, entry) in (1..=GROUPS).zip(index.chunks_exact(NAME_ENTRY)) {
        if !is_clear(entry) {
            put(rt, " ");
            put(rt, group);
            put(rt, ":");
            for b in entry {
                let _ = print!(rt; "{b:02x}");
            }
        }
    }
    put(rt, "\n");
}

// What a call tells, with its rows and the names.
fn put_told<T: Told + Drop>(
    rt: &HostRuntime,
    told: Result<T, Refusal>,
    results: &[u32],
    names: &[u8],
) {
    match told {
        Ok(told) => {
            told.say(rt);
            put_rows(rt, results, told.rows());
            put_names(rt, names);
        }
        Err(f) => put_refused(rt, f),
    }
}

// What a line of a day's gets: how it ends, its steps and, if it is matched, its row. Behind how it ends stands the start or the refusal; the others have
// 0 there, which is not written.
fn put_part(rt: &HostRuntime, row: &[u32], kind: u32, which: u32, steps: u64) {
    match kind {
        0 => put(rt, "  matched"),
        1 => put(rt, "  not matched"),
        2 => put(rt, "  exhausted at "),
        3 => put(rt, "  refused "),
        _ => {}
    }
    if 2 <= kind || which != 0 {
        put(rt, which);
    }
    put(rt, ", ");
    put(rt, steps);
    put(rt, " steps");
    if let (0, [start, end, spans @ ..]) = (kind, row) {
        put(rt, " ");
        put(rt, *start);
        put(rt, "-");
        put(rt, *end);
        put_spans(rt, spans);
    }
    put(rt, "\n");
}

// The first parts. The two halves of a line's steps are told.
fn put_parts(rt: &HostRuntime, results: &[u32], parts: usize) {
    for part in results.chunks_exact(PART_LENGTH).take(parts) {
        if let [row @ .., kind, which, low, high] = part {
            put_part(
                rt,
                row,
                *kind,
                *which,
                *high as u64 * 4294967296 + *low as u64,
            );
        }
    }
}

// What a day's lines tell, with their parts and the names.
fn put_batch(rt: &HostRuntime, told: Result<usize, Refusal>, results: &[u32], names: &[u8]) {
    match told {
        Ok(lines) => {
            put(rt, "done ");
            put(rt, lines);
            put(rt, " lines\n");
            put_parts(rt, results, lines);
            put_names(rt, names);
        }
        Err(f) => put_refused(rt, f),
    }
}

// Why a line does not fit: two failures and the marks.
fn put_why(rt: &HostRuntime, furthest: Failed, closest: Failed, marks: &[u8]) {
    put(rt, "  furthest ");
    put(rt, furthest.at);
    put(rt, " ");
    put(rt, furthest.place);
    put(rt, "\n  closest ");
    put(rt, closest.start);
    put(rt, " ");
    put(rt, closest.at);
    put(rt, " ");
    put(rt, closest.place);
    put(rt, "\n  marks ");
    for mark in marks {
        put(rt, *mark);
    }
    put(rt, "\n");
}

// An explanation, and why a line is not matched. Marks that the rule has no byte for are not told.
fn tell_why(
    rt: &HostRuntime,
    rule: &[u8],
    flags: u32,
    sub: &[u8],
    budget: u32,
    area: &mut [u32],
    work: &mut [u32],
    names: &mut [u8],
    marks: &mut [u8],
) {
    let told = explaining::explain(rule, flags, sub, budget, area, work, names, marks);
    put_told(rt, told, &[], names);
    if let Ok(Explanation::NotMatched(_, furthest, closest)) = told {
        let shown = marks.len().min(rule.len());
        put_why(rt, furthest, closest, &marks[..shown]);
    }
}

// A match. What is refused is told as it is for the other calls.
fn refused_or(outcome: Outcome) -> Result<Outcome, Refusal> {
    match outcome {
        Outcome::Refused(f) => Err(f),
        told => Ok(told),
    }
}

// Any call. The marks of an explanation are as many as there are numbers in the result area.
fn tell(
    rt: &HostRuntime,
    call: Call,
    rule: &[u8],
    flags: u32,
    sub: &[u8],
    budget: u32,
    proposal: &[u8],
    area: &mut [u32],
    work: &mut [u32],
    results: &mut [u32],
    names: &mut [u8],
) {
    match call {
        Call::Match => {
            let outcome = matching::match_line(
                rule, flags, sub, budget, area, work, results, names,
            );
            put_told(rt, refused_or(outcome), results, names);
        }
        Call::List => {
            let told = listing::list_readings(rule, flags, sub, budget, area, work, results, names);
            put_told(rt, told, results, names);
        }
        Call::Scan => {
            let told = scanning::match_all(rule, flags, sub, budget, area, work, results, names);
            put_told(rt, told, results, names);
        }
        Call::Check => {
            let told = checking::check(
                rule, flags, sub, budget, proposal, area, work, results, names,
            );
            put_told(rt, told, results, names);
        }
        Call::Batch => {
            let told = batching::match_lines(rule, flags, sub, budget, area, work, results, names);
            put_batch(rt, told, results, names);
        }
        Call::Explain => {
            let mut marks = [7u8; RULE_ROOM];
            let k = results.len().min(RULE_ROOM);
            tell_why(
                rt,
                rule,
                flags,
                sub,
                budget,
                area,
                work,
                names,
                &mut marks[..k],
            );
        }
    }
}

// A number of a line, held within a length.
fn within(digits: &[u8], length: usize) -> usize
    ensures { result ≤ length }
{
    (vectors::number(digits, MOST) as usize).min(length)
}

// The bytes that a word gives, behind the first ones of an area full of letters `a`; it says where they end. Letters that are asked for stand there already.
fn piece(word: &[u8], area: &mut [u8], first: usize) -> usize
    requires { first ≤ length area.old }
    ensures { result ≤ length area.old }
{
    if let [b'x', letters @ ..] = word {
        return first + within(letters, area.len() - first);
    }
    first + decode(word, &mut area[first..])
}

// What the words of a text give, one behind another; it says how many bytes they are.
fn pieces(words: &[u8], area: &mut [u8]) -> usize
    ensures { result ≤ length area.old }
{
    let mut n: usize = 0;
    let mut rest = words;
    while !rest.is_empty() {
        let (word, behind) = cut(rest, b' ');
        n = piece(word, area, n);
        rest = behind;
    }
    n
}

// The call that a line asks for.
fn tell_line(
    rt: &HostRuntime,
    line: &[u8],
    area: &mut [u32],
    work: &mut [u32],
    results: &mut [u32],
    names: &mut [u8],
) {
    let mut rule = [b'a'; RULE_ROOM];
    let mut proposal = [b'a'; PROPOSAL_ROOM];
    let mut sub = [b'a'; SUBJECT_ROOM];
    let (kind, line) = cut(line, b' ');
    let (flags, line) = cut(line, b' ');
    let (budget, line) = cut(line, b' ');
    let (rule_need, line) = cut(line, b' ');
    let (work_need, line) = cut(line, b' ');
    let (result_need, line) = cut(line, b' ');
    let (name_need, line) = cut(line, b' ');
    let (rule_word, line) = cut(line, b' ');
    let (proposed, subject) = cut(line, b' ');
    let n = piece(rule_word, &mut rule, 0);
    let m = piece(proposed, &mut proposal, 0);
    let k = pieces(subject, &mut sub);
    let a = within(rule_need, area.len());
    let b = within(work_need, work.len());
    let c = within(result_need, results.len());
    let d = within(name_need, names.len());
    tell(
        rt,
        Call::from(vectors::number(kind, MOST)),
        &rule[..n],
        vectors::number(flags, MOST),
        &sub[..k],
        vectors::number(budget, MOST),
        &proposal[..m],
        &mut area[..a],
        &mut work[..b],
        &mut results[..c],
        &mut names[..d],
    );
}

// All lines, with an area for work that is lent as an array: it is too long for the checker to be made a slice where it stands.
fn tell_lines(rt: &HostRuntime, input: &[u8], work: &mut [u32; WORK_AREA]) {
    let mut area = [7u32; RULE_AREA];
    let mut results = [7u32; RESULT_AREA];
    let mut names = [7u8; NAMES];
    let mut rest = input;
    while !rest.is_empty() {
        let (line, behind) = cut(rest, b'\n');
        tell_line(rt, line, &mut area, work, &mut results, &mut names);
        rest = behind;
    }
}

fn main(rt: HostRuntime) {
    let mut buffer = vectors::input_buffer();
    let mut input = rt.stdin();
    let n = vectors::read_full(&mut input, &mut buffer);
    let mut work = [7u32; WORK_AREA];
    tell_lines(&rt, &buffer[..n], &mut work);
}
