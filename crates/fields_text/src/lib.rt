// The text of the table of fields: fields with their odd bytes escaped, and the first two columns of a line, each written at a position of a lent
// slice; what is answered is the position behind it.
#![tactic(auto)]

ghost use Rattle.std.specs.Prelude.{◌≡◌, [], ◌∷◌, ◌+◌, ◌*◌, ◌≤◌, ◌<◌, length};
ghost use Rattle.text.specs.Numbers.{decimal};
ghost use Rattle.text.specs.Writing.{Wrote};
ghost use Rattle.fields_text.specs.Escaping.{hexed, escape, escaped};
ghost use Rattle.fields_text.specs.Table.{opening};
ghost use Rattle.fields_text.specs.Promises.{WroteUpTo};

use text::{append, append_byte, append_number, hex_digit};

// The bytes that one byte of a field is escaped to, at most.
pub const ESCAPE_ROOM: usize = 4;

pub const TAB: u8 = b'\t';

// Writes a byte by its number.
pub fn write_hex(byte: u8, out: &mut [u8], at: usize) -> usize
    requires { at + 4 ≤ length out.old }
    ensures { WroteUpTo 4 out.old at (hexed byte) out.new result }
{
    let digits = append(out, at, b"\\x");
    let last = append_byte(out, digits, hex_digit(byte / 16));
    append_byte(out, last, hex_digit(byte % 16))
}

// Writes a byte of a field.
fn write_byte(byte: u8, out: &mut [u8], at: usize) -> usize
    requires { at + 4 ≤ length out.old }
    ensures { WroteUpTo 4 out.old at (escape byte) out.new result }
{
    match byte {
        b'\t' => append(out, at, b"\\t"),
        b'\n' => append(out, at, b"\\n"),
        b'\r' => append(out, at, b"\\r"),
        b'\\' => append(out, at, b"\\\\"),
        b' '..=b'~' => append_byte(out, at, byte),
        _ => write_hex(byte, out, at),
    }
}

// Writes a field, or a part of one.
pub fn write_escaped(field: &[u8], out: &mut [u8], at: usize) -> usize
    requires { at + 4 * length field.now ≤ length out.old }
    ensures { WroteUpTo (4 * length field.now) out.old at (escaped field.now) out.new result }
{
    let mut end = at;
    for b in field {
        end = write_byte(*b, out, end);
    }
    end
}

// Writes the first two columns of a line: its number, and a word.
pub fn write_opening(number: u64, word: &[u8], out: &mut [u8], at: usize) -> usize
    requires { at + (21 + length word.now) ≤ length out.old }
    ensures { WroteUpTo (21 + length word.now) out.old at (opening (decimal number) word.now) out.new result }
{
    let first = append_number(out, at, number);
    let second = append_byte(out, first, TAB);
    append(out, second, word)
}
