// The log of choices: the proposal's bytes, and beside each which way is left of it.
//
// A way that is left is a frame of the machine's stack, or a position of a run's frame, in the same order: falling back goes to the newest entry that has
// one, and what was chosen behind that is forgotten.
ghost use Rattle.std.specs.Prelude.{◌≤◌, ◌<◌, IfOk, length};
ghost use Rattle.choosing.specs.Logs.{Within};

use crate::Unmade;

// What is left of a choice: nothing, the other of going on and another round, or the next branch.
#[derive(Clone, Copy, Debug, PartialEq, Eq)]
pub enum Way {
    Settled,
    Other,
    Next,
}

// As a byte of the area that is lent for the log.
impl From<Way> for u8 {
    fn from(way: Way) -> u8 {
        match way {
            Way::Settled => 0,
            Way::Other => 1,
            Way::Next => 2,
        }
    }
}

impl From<u8> for Way {
    fn from(byte: u8) -> Way {
        match byte {
            0 => Way::Settled,
            1 => Way::Other,
            _ => Way::Next,
        }
    }
}

// The greatest number of a branch that a byte can tell.
const LAST_BRANCH: u8 = u8::MAX;

// How many bytes are written, and whether the machine stands at a branch whose number is written already.
#[derive(Clone, Copy, Debug, PartialEq, Eq)]
pub struct Log {
    pub used: usize,
    pub resumed: bool,
}

// Writes an entry.
fn write(proposal: &mut [u8], ways: &mut [u8], i: usize, byte: u8, way: Way)
    requires { (i < length proposal.old) × (i < length ways.old) }
{
    proposal[i] = byte;
    ways[i] = u8::from(way);
}

// One choice more, if there is room.
pub fn put(
    proposal: &mut [u8],
    ways: &mut [u8],
    log: Log,
    byte: u8,
    way: Way,
) -> Result<Log, Unmade>
    ensures { IfOk result (Within proposal.new ways.new) }
{
    if proposal.len() <= log.used || ways.len() <= log.used {
        return Err(Unmade::NoRoom);
    }
    write(proposal, ways, log.used, byte, way);
    Ok(Log {
        used: log.used + 1,
        resumed: false,
    })
}

// The newest of the first n entries that has a way left, counted from 1; or 0.
fn newest(ways: &[u8], n: usize) -> usize
    requires { n ≤ length ways.now }
    ensures { result ≤ n }
{
    let mut i = n;
    while 0 < i {
        if Way::from(ways[i - 1]) != Way::Settled {
            return i;
        }
        i -= 1;
    }
    0
}

// The other of going on and another round.
fn other_of(byte: u8) -> u8 {
    if byte == 0 {
        return 1;
    }
    0
}

// A repeat's entry: the other way is taken.
fn take_other(proposal: &mut [u8], ways: &mut [u8], i: usize) -> Log
    requires { (i < length proposal.old) × (i < length ways.old) }
    ensures { Within proposal.new ways.new result }
{
    let byte = other_of(proposal[i]);
    write(proposal, ways, i, byte, Way::Settled);
    Log {
        used: i + 1,
        resumed: false,
    }
}

// An alternation's entry: the next branch is taken, and the machine stands at its node; `more`: it is not the last.
fn take_next(proposal: &mut [u8], ways: &mut [u8], i: usize, more: bool) -> Result<Log, Unmade>
    requires { (i < length proposal.old) × (i < length ways.old) }
    ensures { IfOk result (Within proposal.new ways.new) }
{
    let byte = proposal[i];
    if LAST_BRANCH <= byte {
        return Err(Unmade::NoRoom);
    }
    let left = if more { Way::Next } else { Way::Settled };
    write(proposal, ways, i, byte + 1, left);
    Ok(Log {
        used: i + 1,
        resumed: true,
    })
}

// The walk fell back; `more`: to a branch that is not the last.
pub fn go_back(proposal: &mut [u8], ways: &mut [u8], log: Log, more: bool) -> Result<Log, Unmade>
    requires { Within proposal.old ways.old log }
    ensures { IfOk result (Within proposal.new ways.new) }
{
    let top = newest(ways, log.used);
    if top == 0 {
        return Ok(Log {
            used: 0,
            resumed: false,
        });
    }
    let i = top - 1;
    if Way::from(ways[i]) == Way::Other {
        return Ok(take_other(proposal, ways, i));
    }
    take_next(proposal, ways, i, more)
}
