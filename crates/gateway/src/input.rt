// One read.
ghost use Rattle.std.specs.Prelude.{◌≤◌, length, IfOk, IfSome};

use std::io;
use std::io::ErrorKind;

// How many bytes came, or none at the end. A signal in between brings no bytes, and is not the end.
pub(crate) fn read_some<R: io::Read>(reader: &mut R, buffer: &mut [u8]) -> io::Result<Option<usize>>
    ensures { IfOk result (λ read. IfSome read (λ n. n ≤ length buffer.old)) }
{
    match reader.read(buffer) {
        Ok(0) => Ok(None),
        Ok(n) => Ok(Some(n)),
        Err(why) if why.kind() == ErrorKind::Interrupted => Ok(Some(0)),
        Err(why) => Err(why),
    }
}
