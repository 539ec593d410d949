// The first line of the rule file, read only as far as it is needed.
ghost use Rattle.std.specs.Prelude.{◌≤◌, length, IfOk};

use crate::input::read_some;
use std::io;
use std::io::ErrorKind;
use text::line_end;

// Reads up to the first 0A, the end of the file or the end of the slice, and says how many bytes that are.
pub(crate) fn load<R: io::Read>(reader: &mut R, rule: &mut [u8]) -> io::Result<usize>
    ensures { IfOk result (λ n. n ≤ length rule.old) }
{
    let mut have = 0;
    // nothing says that a file ends: the reads are counted
    for _ in 0..u64::MAX {
        if have == rule.len() {
            return Ok(have);
        }
        let Some(n) = read_some(reader, &mut rule[have..])? else {
            return Ok(have);
        };
        let all = have + n;
        let end = line_end(&rule[..all], have);
        if end < all {
            return Ok(end);
        }
        have = all;
    }
    Err(io::Error::from(ErrorKind::TimedOut))
}
