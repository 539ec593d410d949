// The zero-width assertions.
ghost use Rattle.std.specs.Prelude.{◌≡◌, ℕ, ◌/◌, ◌%◌, ◌<◌, ◌^◌};
ghost use Rattle.charset.specs.Class.{bit};
ghost use Rattle.syntax.specs.declared.Assertion.TheVariants.{LineStart, LastLineEnd, LineEnd, WordBoundary};
ghost use Rattle.syntax.specs.Read.{byte};
ghost use Rattle.semantics.specs.Assertions.{byte_before, is_word, holds};
ghost use Rattle.machine.specs.Code.{assertion_of};

// What stands for a byte that is not there.
const NO_BYTE: u32 = 256;

const NEWLINE: u32 = 10;

// The byte at a position, and 256 past the end.
pub fn byte_at(sub: &[u8], at: usize) -> u32
    ensures { result ≡ byte sub.now at }
{
    if at < sub.len() {
        return sub[at] as u32;
    }
    NO_BYTE
}

// The byte before a position, and 256 if there is none.
fn byte_before(sub: &[u8], at: usize) -> u32
    ensures { result ≡ byte_before sub.now at }
{
    if 0 < at {
        return byte_at(sub, at - 1);
    }
    NO_BYTE
}

// The word bytes among 32 byte values in a row, a bit for each: the digits in the second row, the letters and `_` in the third and fourth.
fn word_row(row: u32) -> u32
    ensures { (b : ℕ) → b / 32 ≡ row → bit result (b % 32) ≡ is_word b }
{
    match row {
        1 => 0x03FF0000,
        2 => 0x87FFFFFE,
        3 => 0x07FFFFFE,
        _ => 0,
    }
}

// Whether there is a byte, and it is a word byte: a digit, a letter or `_`. Words end where no branch can be foretold, so that none is asked: the bit of
// the byte is. The table of the named sets would be made anew at each use.
fn is_word(b: u32) -> bool
    ensures { result ≡ is_word b }
{
    let row = word_row(b >> 5);
    (row >> (b & 31)) & 1 == 1
}

fn at_line_start(sub: &[u8], at: usize) -> bool
    ensures { result ≡ holds sub.now LineStart at }
{
    if at == 0 {
        return true;
    }
    if at < sub.len() {
        return byte_before(sub, at) == NEWLINE;
    }
    false
}

fn at_last_line_end(sub: &[u8], at: usize) -> bool
    requires { at < 2 ^ 32 }
    ensures { result ≡ holds sub.now LastLineEnd at }
{
    if at == sub.len() {
        return true;
    }
    if at + 1 == sub.len() {
        return byte_at(sub, at) == NEWLINE;
    }
    false
}

fn at_line_end(sub: &[u8], at: usize) -> bool
    ensures { result ≡ holds sub.now LineEnd at }
{
    if at == sub.len() {
        return true;
    }
    byte_at(sub, at) == NEWLINE
}

fn at_word_boundary(sub: &[u8], at: usize) -> bool
    ensures { result ≡ holds sub.now WordBoundary at }
{
    let before = is_word(byte_before(sub, at));
    let here = is_word(byte_at(sub, at));
    if before {
        return !here;
    }
    here
}

// Whether the assertion of this number holds.
pub fn assertion_holds(sub: &[u8], which: u32, at: usize) -> bool
    requires { at < 2 ^ 32 }
    ensures { result ≡ holds sub.now (assertion_of which) at }
{
    match which {
        0 => at == 0,
        1 => at_line_start(sub, at),
        2 => at == sub.len(),
        3 => at_last_line_end(sub, at),
        4 => at_line_end(sub, at),
        5 => at_word_boundary(sub, at),
        _ => !at_word_boundary(sub, at),
    }
}
