// What is shown of a line, of a rule or of a name.
ghost use Rattle.std.specs.Prelude.{◌+◌, ◌≤◌, ◌<◌, length};

use office::{ROOM, put, put_number};
use page_text::write_shown;

// How many bytes are shown at once, and the room for them.
const PIECE: usize = 64;

const PIECE_ROOM: usize = PIECE * page_text::SHOWN_ROOM;

fn put_piece(rt: &HostRuntime, out: &mut [u8; ROOM], at: usize, piece: &[u8]) -> usize
    requires { length piece.now ≤ 64 }
{
    let mut shown = [0u8; PIECE_ROOM];
    let n = write_shown(piece, &mut shown, 0);
    put(rt, out, at, &shown[..n])
}

// Puts a text as it is shown.
pub fn put_shown(rt: &HostRuntime, out: &mut [u8; ROOM], at: usize, text: &[u8]) -> usize {
    let mut p = at;
    for piece in text.chunks(PIECE) {
        p = put_piece(rt, out, p, piece);
    }
    p
}

// A text between two pieces of markup, if it has any bytes.
pub(crate) fn put_within(
    rt: &HostRuntime,
    out: &mut [u8; ROOM],
    at: usize,
    before: &[u8],
    text: &[u8],
    behind: &[u8],
) -> usize {
    if text.len() == 0 {
        return at;
    }
    let p = put(rt, out, at, before);
    let q = put_shown(rt, out, p, text);
    put(rt, out, q, behind)
}

// Says how many bytes are left out, if there are any.
pub(crate) fn put_left_out(rt: &HostRuntime, out: &mut [u8; ROOM], at: usize, n: usize) -> usize {
    if n == 0 {
        return at;
    }
    put_number(
        rt,
        out,
        at,
        b"<i> &#8230; ",
        n as u64,
        b" bytes more &#8230; </i>",
    )
}

// A text in a paragraph of its own.
pub fn put_paragraph(rt: &HostRuntime, out: &mut [u8; ROOM], at: usize, text: &[u8]) -> usize {
    let p = put(rt, out, at, b"<p>");
    let q = put_shown(rt, out, p, text);
    put(rt, out, q, b"</p>\n")
}
