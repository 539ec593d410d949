// An input that comes in pieces: the lines that end in a piece are answered, and the beginning of one that does not is held.
ghost use Rattle.std.specs.Prelude.{◌+◌, ◌≤◌, length, take};
ghost use Rattle.gateway_text.specs.Limits.{answer_room};
ghost use Rattle.gateway_answers.specs.Limits.{held_limit};
ghost use Rattle.gateway_answers.specs.Promises.{Lent};
ghost use Rattle.gateway_line.specs.Promises.{Onward, Advanced, Finished};

use gateway_answers::{LINE_LIMIT, answer};
use text::{gather, line_end};

// How many bytes of a line are held: with one more than the limit, a line is known to be over it.
pub const HELD_LIMIT: usize = LINE_LIMIT + 1;

// How far the program is: the position in the piece, how many bytes of the line are held, and the position in the output.
#[derive(Drop)]
pub struct Progress {
    pub at: usize,
    pub have: usize,
    pub put: usize,
}

// Goes on to the end of a line, which is answered, or to the end of the piece.
pub fn advance(
    code: &[u32],
    entry: u32,
    groups: u32,
    piece: &[u8],
    line: &mut [u8],
    work_area: &mut [u32],
    results: &mut [u32],
    out: &mut [u8],
    p: Progress,
) -> Progress
    requires lent { Lent code.now entry groups work_area.old results.old }
    requires at_in_bounds { (p.at ≤ length piece.now) × (p.have ≤ held_limit) × (held_limit ≤ length line.old) × (p.put + answer_room ≤ length out.old) }
    ensures onward { Onward piece.now p result }
    ensures advanced { Advanced code.now entry groups piece.now line.old out.old p line.new out.new result }
{
    let at = p.at;
    let have = p.have;
    let put = p.put;
    let end = line_end(piece, at);
    let held = gather(line, HELD_LIMIT, have, &piece[at..end]);
    if end == piece.len() {
        return Progress {
            at: end,
            have: held,
            put,
        };
    }
    let behind = answer(
        code,
        entry,
        groups,
        &line[..held],
        work_area,
        results,
        out,
        put,
    );
    Progress {
        at: end + 1,
        have: 0,
        put: behind,
    }
}

// Answers the last piece of the input, if it is not empty.
pub fn finish(
    code: &[u32],
    entry: u32,
    groups: u32,
    held: &[u8],
    work_area: &mut [u32],
    results: &mut [u32],
    out: &mut [u8],
    put: usize,
) -> usize
    requires lent { Lent code.now entry groups work_area.old results.old }
    requires answer_room_in_bounds { put + answer_room ≤ length out.old }
    ensures { Finished code.now entry groups held.now out.old put out.new result }
{
    if held.len() == 0 {
        return put;
    }
    answer(code, entry, groups, held, work_area, results, out, put)
}
