// What a page shows of a line, of a rule or of a name, written at a position of a lent slice; what is answered is the position behind it.
//
// Whatever the bytes are, what is written is text and never markup: `proofs/Laws/Harmless.antt` says so of the definition that the promises cite, and
// `proofs/Laws/Decoding.antt` that no two texts look the same. A byte takes up to 16 bytes, so the caller lends 16 for each.
#![tactic(auto)]

ghost use Rattle.std.specs.Prelude.{◌≡◌, ◌+◌, ◌*◌, ◌≤◌, length};
ghost use Rattle.fields_text.specs.Promises.{WroteUpTo};
ghost use Rattle.page_text.specs.Showing.{numbered, show, shown};

use text::{append, append_byte, hex_digit};

// The bytes that are written for one byte, at most.
pub const SHOWN_ROOM: usize = 16;

// Writes a byte by its number.
fn write_numbered(byte: u8, out: &mut [u8], at: usize) -> usize
    requires { at + 16 ≤ length out.old }
    ensures { WroteUpTo 16 out.old at (numbered byte) out.new result }
{
    let digits = append(out, at, b"&#8249;");
    let last = append_byte(out, digits, hex_digit(byte / 16));
    let close = append_byte(out, last, hex_digit(byte % 16));
    append(out, close, b"&#8250;")
}

// Writes a byte as it is shown.
fn write_byte(byte: u8, out: &mut [u8], at: usize) -> usize
    requires { at + 16 ≤ length out.old }
    ensures { WroteUpTo 16 out.old at (show byte) out.new result }
{
    match byte {
        b'<' => append(out, at, b"&lt;"),
        b'>' => append(out, at, b"&gt;"),
        b'&' => append(out, at, b"&amp;"),
        b'"' => append(out, at, b"&quot;"),
        b'\'' => append(out, at, b"&#39;"),
        b' '..=b'~' => append_byte(out, at, byte),
        _ => write_numbered(byte, out, at),
    }
}

// Writes a text as it is shown.
pub fn write_shown(text: &[u8], out: &mut [u8], at: usize) -> usize
    requires { at + 16 * length text.now ≤ length out.old }
    ensures { WroteUpTo (16 * length text.now) out.old at (shown text.now) out.new result }
{
    let mut end = at;
    for b in text {
        end = write_byte(*b, out, end);
    }
    end
}
