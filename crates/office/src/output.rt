// What a program writes: a report or a table, through a buffer that goes to standard output in large pieces.
use std::io::{Error, ErrorKind};
use text::append;

// The room of the buffer.
pub const ROOM: usize = 65536;

// How many bytes wait in the buffer once nothing can be written any more: more than there is room for.
pub const CLOSED: usize = ROOM + 1;

// Writes out the bytes that wait in the buffer, its first `at`. It says whether all that was put could be written.
pub fn flush(rt: &HostRuntime, out: &[u8], at: usize) -> bool {
    if out.len() < at {
        return false;
    }
    rt.write_all(&out[..at]).is_ok()
}

// Puts a text behind the bytes that wait, and says how many wait then. Where the text does not fit, those that wait are written out first.
pub fn put(rt: &HostRuntime, out: &mut [u8; ROOM], at: usize, text: &[u8]) -> usize {
    if at <= ROOM {
        if text.len() <= ROOM - at {
            return append(out, at, text);
        }
    }
    if !flush(rt, out, at) {
        return CLOSED;
    }
    // no text that is put is longer than the buffer
    if ROOM < text.len() {
        return CLOSED;
    }
    append(out, 0, text)
}

// Puts a number between two texts.
pub fn put_number(
    rt: &HostRuntime,
    out: &mut [u8; ROOM],
    at: usize,
    before: &[u8],
    n: u64,
    behind: &[u8],
) -> usize {
    let mut digits = [0u8; 20];
    let k = io::decimal(n, &mut digits);
    let p = put(rt, out, at, before);
    let q = put(rt, out, p, &digits[..k]);
    put(rt, out, q, behind)
}

// How the telling of lines ended: how many bytes wait to be written out, and why the file could not be read to its end, if so.
#[derive(Drop)]
pub struct Told {
    pub at: usize,
    pub failed: Option<Error>,
}

impl Told {
    // All lines were told, or nothing can be written any more.
    pub fn ended(at: usize) -> Told {
        Told { at, failed: None }
    }

    // The file could not be read: what was told is written out before the message that says so.
    pub fn broken_off(rt: &HostRuntime, why: Error, out: &[u8; ROOM], at: usize) -> Told {
        if flush(rt, out, at) {
            return Told {
                at: 0,
                failed: Some(why),
            };
        }
        Told::ended(CLOSED)
    }

    // The lines were counted to their end, which no file reaches.
    pub fn endless(at: usize) -> Told {
        Told {
            at,
            failed: Some(Error::from(ErrorKind::TimedOut)),
        }
    }
}
