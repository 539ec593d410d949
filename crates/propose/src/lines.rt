// The lines of a file, one after another.
ghost use Rattle.std.specs.Prelude.{◌≤◌, ◌<◌, length};
ghost use Rattle.propose.specs.Rules.{Holds};

use finding::{Outcome, match_held};
use frame::{BUDGET_LIMIT, SUBJECT_LIMIT};
use index::ROW_LENGTH;
use office::{CLOSED, Lines, ROOM, Told, put, put_number};
use proposing::{Proposal, Unmade, propose_held};
use std::fs::File;

// What is lent to the calls: 16 numbers for each step of the largest budget, and of a proposal two bytes of start and one for each of those steps.
// They are arrays: with a `Vec` the program could find no memory, and would say so, where what it says may not change.
pub const RULE_AREA: usize = frame::RULE_AREA_NEED;

pub const WORK_AREA: usize = frame::WORK_PER_STEP * BUDGET_LIMIT as usize;

pub const CHOICES: usize = 2 + BUDGET_LIMIT as usize;

// A line that fills this is too long: the longest that can be matched has one byte less.
const LINE: usize = SUBJECT_LIMIT + 1;

// What stays the same for all lines: where the rule that stands compiled is entered, and the budget.
#[derive(Clone, Copy)]
pub struct Setting {
    pub entry: u32,
    pub budget: u32,
}

// Bytes in hexadecimal digits.
fn put_bytes(rt: &HostRuntime, out: &mut [u8; ROOM], at: usize, bytes: &[u8]) -> usize {
    let mut p = at;
    for byte in bytes {
        let mut pair = [0u8; 16];
        let n = io::hex(u64::from(*byte), 2, &mut pair);
        p = put(rt, out, p, &pair[..n]);
    }
    p
}

// The proposal that was made for a line, or why there is none.
fn put_proposed(
    rt: &HostRuntime,
    out: &mut [u8; ROOM],
    at: usize,
    proposed: Result<Proposal, Unmade>,
    proposal: &[u8],
) -> usize {
    match proposed {
        Ok(Proposal { bytes, steps }) => {
            // it has no more bytes than were lent
            if proposal.len() < bytes {
                return put(rt, out, at, b"- no room\n");
            }
            let p = put_bytes(rt, out, at, &proposal[..bytes]);
            put_number(rt, out, p, b" ", steps, b"\n")
        }
        Err(Unmade::Exhausted) => put(rt, out, at, b"- exhausted\n"),
        Err(Unmade::NoRoom) => put(rt, out, at, b"- no room\n"),
        Err(Unmade::Unfound) => put(rt, out, at, b"- not made\n"),
    }
}

// A line under its number, or one that is too long and of which the beginning is there.
fn tell_line(
    rt: &HostRuntime,
    number: u64,
    area: &[u32; RULE_AREA],
    setting: Setting,
    line: &[u8],
    work: &mut [u32; WORK_AREA],
    ways: &mut [u8; CHOICES],
    proposal: &mut [u8; CHOICES],
    out: &mut [u8; ROOM],
    at: usize,
) -> usize
    requires { Holds area.now setting.entry setting.budget × (length line.now ≤ 65536) }
{
    let p = put_number(rt, out, at, b"", number, b" ");
    if line.len() == LINE {
        return put(rt, out, p, b"- too long\n");
    }
    let mut row = [0u32; ROW_LENGTH];
    match match_held(area, setting.entry, line, setting.budget, work, &mut row) {
        Outcome::Matched(_steps) => {
            let proposed = propose_held(
                area,
                setting.entry,
                line,
                setting.budget,
                &row,
                work,
                ways,
                proposal,
            );
            put_proposed(rt, out, p, proposed, proposal)
        }
        Outcome::NotMatched(_steps) => put(rt, out, p, b"- not matched\n"),
        Outcome::Exhausted(_start, _steps) => put(rt, out, p, b"- exhausted\n"),
        // a rule that stands is not refused
        Outcome::Refused(_f) => put(rt, out, p, b"- not matched\n"),
    }
}

// Tells of all lines of a file, up to its end or to where nothing can be written any more.
pub(crate) fn tell_lines(
    rt: &HostRuntime,
    lines: &mut Lines<File>,
    area: &[u32; RULE_AREA],
    setting: Setting,
    work: &mut [u32; WORK_AREA],
    ways: &mut [u8; CHOICES],
    proposal: &mut [u8; CHOICES],
    out: &mut [u8; ROOM],
) -> Told
    requires { Holds area.now setting.entry setting.budget }
{
    let mut line = [0u8; LINE];
    let mut at: usize = 0;
    // nothing says that a file ends: the lines are counted
    for number in 1..u64::MAX {
        match lines.next(&mut line) {
            Ok(Some(n)) => {
                at = tell_line(
                    rt,
                    number,
                    area,
                    setting,
                    &line[..n],
                    work,
                    ways,
                    proposal,
                    out,
                    at,
                );
            }
            Ok(None) => return Told::ended(at),
            Err(cut) => return Told::broken_off(rt, cut.why, out, at),
        }
        if at == CLOSED {
            return Told::ended(at);
        }
    }
    Told::endless(at)
}
