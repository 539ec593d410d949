// Messages to standard error. They are bytes: a name or a line need not be UTF-8.
ghost use Rattle.std.specs.Prelude.{◌≤◌, length};

use std::io::{Cursor, Error, IsTerminal, Write};

// How many lines pass between two messages of how far a run is.
const PROGRESS: u64 = 10000;

// A message that cannot be written is lost, as there is nobody to tell.
pub fn say(rt: &HostRuntime, text: &[u8]) {
    let mut to = rt.stderr();
    let _ = to.write_all(text);
}

// Says what failed, as the caller names it, and the system's reason: 'WHAT: REASON', and the end of the line. A reason as it is printed ends in
// ' (os error N)', which is left out.
pub fn fail(rt: &HostRuntime, what: &[u8], why: Error) {
    let mut text = Cursor::new([0u8; 256]);
    let _ = write!(text, "{why}");
    let bytes = text.into_inner();
    let n = reason_end(&bytes);
    say(rt, what);
    say(rt, b": ");
    say(rt, &bytes[..n]);
    say(rt, b"\n");
}

// The same, with the program in front.
pub fn fail_at(rt: &HostRuntime, program: &[u8], what: &[u8], why: Error) {
    say(rt, program);
    say(rt, b": ");
    fail(rt, what, why);
}

// Where a reason ends: before the ' (' of ' (os error N)', or before the first 00.
fn reason_end(text: &[u8]) -> usize
    ensures { result ≤ length text.now }
{
    for i in 0..text.len() {
        if text[i] == 0 || text[i..].starts_with(b" (os error ") {
            return i;
        }
    }
    text.len()
}

// Says how far a run is, after each ten thousand lines, to one who waits at a terminal for what is written elsewhere. A run that nobody watches, and one
// whose report itself goes to the terminal, say nothing.
pub fn report_progress(rt: &HostRuntime, program: &[u8], lines: u64, done: &[u8]) {
    if lines % PROGRESS != 0 || !rt.stderr().is_terminal() || rt.stdout().is_terminal() {
        return;
    }
    say(rt, program);
    let _ = eprint!(rt; ": {lines} lines");
    say(rt, done);
    say(rt, b"\n");
}
