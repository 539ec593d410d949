// Writing to standard output.
use office::fail;
use std::io::Error;

// No answer is lost in silence: where the answers could not be written it says so.
pub(crate) fn say_unwritten(rt: &HostRuntime, written: Result<(), Error>) {
    if let Err(why) = written {
        fail(rt, b"gateway: the answers could not be written", why);
    }
}
