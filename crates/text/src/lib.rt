// Text in lent slices: the end of a line, bytes and numbers written one behind another, and a line that comes in pieces.
#![tactic(auto)]

ghost use Rattle.std.specs.Prelude.{◌≡◌, false, [], ◌∷◌, ◌+◌, ◌≤◌, ◌<◌, length, drop};
ghost use Rattle.text.specs.Gathering.{Gathered};
ghost use Rattle.text.specs.Lines.{newline, line_length};
ghost use Rattle.text.specs.Numbers.{decimal, hex_digit};
ghost use Rattle.text.specs.Writing.{Wrote};

pub const NEWLINE: u8 = b'\n';

// the bytes that are looked at together
const BLOCK: usize = 16;

// Whether a byte is an 0A, or there was one before.
fn met(byte: u8, before: bool) -> bool
    ensures { result ≡ false → (byte ≡ newline → ⊥) × (before ≡ false) }
{
    if byte == NEWLINE {
        return true;
    }
    before
}

// Whether a block has an 0A. The loop goes to its end in any case, so that the compiler looks at all of the block at once.
fn ends_within(input: &[u8], from: usize) -> bool
    requires { from + 16 ≤ length input.now }
    ensures { result ≡ false → line_length (drop from input.now) ≡ 16 + line_length (drop (from + 16) input.now) }
{
    let mut found = false;
    for i in 0..BLOCK {
        found = met(input[from + i], found);
    }
    found
}

// From a position on, by blocks: where one with an 0A begins, or where the input has no whole one.
fn skip_blocks(input: &[u8], from: usize) -> usize
    ensures { result + line_length (drop result input.now) ≡ from + line_length (drop from input.now) }
{
    for i in (from..input.len()).step_by(BLOCK) {
        if input.len() - i < BLOCK || ends_within(input, i) {
            return i;
        }
    }
    from.max(input.len())
}

// The position of the first 0A at or behind a position; the end of the input where there is none.
pub fn line_end(input: &[u8], from: usize) -> usize
    ensures { result ≡ from + line_length (drop from input.now) }
{
    let first = skip_blocks(input, from);
    for i in first..input.len() {
        if input[i] == NEWLINE {
            return i;
        }
    }
    first.max(input.len())
}

// Writes a text at a position, and answers the position behind it.
pub fn append(out: &mut [u8], at: usize, text: &[u8]) -> usize
    requires { at + length text.now ≤ length out.old }
    ensures { Wrote out.old at text.now out.new result }
{
    let end = at + text.len();
    out[at..end].copy_from_slice(text);
    end
}

// Writes one byte.
pub fn append_byte(out: &mut [u8], at: usize, byte: u8) -> usize
    requires { at < length out.old }
    ensures { Wrote out.old at (byte ∷ []) out.new result }
{
    out[at] = byte;
    at + 1
}

// Writes a number in decimal digits: those of its tenth, then its last.
pub fn append_number(out: &mut [u8], at: usize, n: u64) -> usize
    requires { at + length (decimal n) ≤ length out.old }
    ensures { Wrote out.old at (decimal n) out.new result }
{
    if n < 10 {
        return append_byte(out, at, b'0' + n as u8);
    }
    let behind = append_number(out, at, n / 10);
    append_byte(out, behind, b'0' + (n % 10) as u8)
}

// A hexadecimal digit.
pub fn hex_digit(d: u8) -> u8
    requires { d < 16 }
    ensures { result ≡ hex_digit d }
{
    if d < 10 { b'0' + d } else { b'A' + (d - 10) }
}

// Puts a piece behind the bytes of a line that are held, and answers how many are held now: never more than the limit.
pub fn gather(line: &mut [u8], limit: usize, have: usize, piece: &[u8]) -> usize
    requires { (have ≤ limit) × (limit ≤ length line.old) }
    ensures { Gathered limit line.old have piece.now line.new result }
{
    let fitting = (limit - have).min(piece.len());
    append(line, have, &piece[..fitting])
}
