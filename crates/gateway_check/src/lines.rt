// Standard input, line by line.
ghost use Rattle.std.specs.Prelude.{◌≤◌};
ghost use Rattle.syntax.specs.Limits.{group_limit};
ghost use Rattle.syntax.specs.Tree.{Rule};
ghost use Rattle.machine.specs.Theorem.{Stands};

use crate::answering::{LINE_ROOM, RULE_AREA, answer};
use office::{CLOSED, Lines, ROOM, fail, flush, say};

// Writes out the answers that wait, and says how many wait then. No answer is lost in silence.
pub(crate) fn write_out(rt: &HostRuntime, out: &[u8; ROOM], at: usize) -> usize {
    if flush(rt, out, at) {
        return 0;
    }
    say(rt, b"gateway_check: the answers could not be written\n");
    CLOSED
}

// Writes out the answers where nothing is left of what was read: the next read may wait. Answers that could not be written before are told here, too.
fn deliver(rt: &HostRuntime, out: &[u8; ROOM], at: usize, more: bool) -> usize {
    if more && at < CLOSED {
        return at;
    }
    write_out(rt, out, at)
}

// Answers all lines of the input, up to its end or to where nothing can be written any more. Input that fails is over, and what it brought of a line is
// answered.
pub(crate) fn answer_input(
    rt: &HostRuntime,
    code: &[u32; RULE_AREA],
    entry: u32,
    groups: u32,
    out: &mut [u8; ROOM],
)
    requires { ((x : Rule) × Stands code.now x entry) × (groups ≤ group_limit) }
{
    let mut lines = Lines::new(rt.stdin());
    let mut line = [0u8; LINE_ROOM];
    let mut at: usize = 0;
    // nothing says that the input ends: the lines are counted
    for _ in 0..u64::MAX {
        match lines.next(&mut line) {
            Ok(Some(n)) => {
                at = answer(rt, code, entry, groups, &line[..n], out, at);
                at = deliver(rt, out, at, lines.holds_more());
            }
            Ok(None) => {
                write_out(rt, out, at);
                return;
            }
            Err(cut) => {
                fail(rt, b"gateway_check: standard input", cut.why);
                if 0 < cut.have {
                    at = answer(rt, code, entry, groups, &line[..cut.have], out, at);
                }
                write_out(rt, out, at);
                return;
            }
        }
        if at == CLOSED {
            return;
        }
    }
}
