// Files that arguments name.
ghost use Rattle.std.specs.Prelude.{◌≤◌, length, IfSome};

use crate::lines::Lines;
use crate::messages::fail_at;
use std::env::{Env, FillError};
use std::fs::File;
use std::{fs, io};

// The system's numbers for a name that is too long, for one that is missing, and for one that is no text.
const NAME_TOO_LONG: i32 = 36;

const INVALID: i32 = 22;

const NO_TEXT: i32 = 84;

// Why an argument gives no name, as the system would put it.
fn unnamed(why: FillError) -> io::Error {
    match why {
        FillError::TooLong => io::Error::from_raw_os_error(NAME_TOO_LONG),
        FillError::NotPresent => io::Error::from_raw_os_error(INVALID),
    }
}

// The path that an argument names, put into a buffer; or it is said why there is none. A path is text: a file has no name here that is not UTF-8.
pub fn path_at<'b>(
    rt: &HostRuntime,
    program: &[u8],
    argument: usize,
    buffer: &'b mut [u8],
) -> Option<&'b str> {
    let n = match rt.arg(argument, buffer) {
        Ok(n) => n,
        Err(why) => {
            fail_at(rt, program, b"the name of a file", unnamed(why));
            return None;
        }
    };
    let name = &buffer[..n];
    match std::str::from_utf8(name) {
        Ok(path) => Some(path),
        Err(_) => {
            let why = io::Error::from_raw_os_error(NO_TEXT);
            fail_at(rt, program, name, why);
            None
        }
    }
}

// Opens the file that an argument names. Where that fails it says so, and answers none.
pub fn open(rt: &HostRuntime, program: &[u8], argument: usize) -> Option<File> {
    let mut buffer = [0u8; 4096];
    let path = path_at(rt, program, argument, &mut buffer)?;
    match fs::open(rt, path) {
        Ok(file) => Some(file),
        Err(why) => {
            fail_at(rt, program, path.as_bytes(), why);
            None
        }
    }
}

// The rule in the file that an argument names, its first line or all of it, put into a buffer. Where it cannot be read, it is said why. A rule that
// fills the buffer is read no further: it is too long, whatever follows. The file comes with it, to be held open as long as the rule is used: who writes
// more than the rule into a pipe of that name is not cut off before it is read as the lines, too.
pub fn read_rule<'r>(
    rt: &HostRuntime,
    program: &[u8],
    argument: usize,
    rule: &'r mut [u8],
) -> Option<(File, &'r [u8])>
    ensures { IfSome result (λ r. length r.1.now ≤ length rule.old) }
{
    let mut file = open(rt, program, argument)?;
    let first = Lines::new(&mut file).first(rule);
    match first {
        Ok(n) => Some((file, &rule[..n])),
        Err(why) => {
            fail_at(rt, program, b"the rule could not be read", why);
            None
        }
    }
}
