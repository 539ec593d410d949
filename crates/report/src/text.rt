// The text of a line as it is shown, one column for each byte.
ghost use Rattle.std.specs.Prelude.{◌≡◌, ◌++◌, min, length, take, drop};
ghost use Rattle.report.specs.Text.{is_printed, shown_byte, shown_text, is_odd};

const DOT: u8 = b'.';

// Whether a byte is printed in one column.
pub fn is_printed(b: u8) -> bool
    ensures { result ≡ is_printed b }
{
    matches!(b, b' '..=b'~')
}

// The byte that is shown for one.
fn shown(b: u8) -> u8
    ensures { result ≡ shown_byte b }
{
    if is_printed(b) { b } else { DOT }
}

// Shows a line, or as much of it as there is room for, at the beginning of `out`. It says how many bytes these are.
pub fn show(line: &[u8], out: &mut [u8]) -> usize
    ensures { (result ≡ min (length out.old) (length line.now)) × (out.new ≡ shown_text (take (length out.old) line.now) ++ drop result out.old) }
{
    let count = out.len().min(line.len());
    for i in 0..count {
        out[i] = shown(line[i]);
    }
    count
}

// Whether a line has a byte that is shown as a dot in its place.
pub fn is_odd(line: &[u8]) -> bool
    ensures { result ≡ is_odd line.now }
{
    line.iter().any(|b| !is_printed(*b))
}
