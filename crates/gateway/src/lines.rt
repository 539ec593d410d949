// Standard input, piece by piece, and the answers to its lines.
ghost use Rattle.std.specs.Prelude.{◌+◌, ◌≤◌, length, IfOk, IfSome};
ghost use Rattle.gateway_text.specs.Limits.{answer_room};
ghost use Rattle.gateway_answers.specs.Limits.{held_limit};
ghost use Rattle.gateway_answers.specs.Promises.{Lent};

use crate::input::read_some;
use gateway_line::{Progress, advance, finish};
use gateway_text::ANSWER_ROOM;
use office::fail;
use std::io;
use std::io::Read;

// Writes out what waits where the next answer may not find room, and says how many bytes wait then.
fn make_room(rt: &HostRuntime, out: &[u8], put: usize) -> io::Result<usize>
    requires { (put ≤ length out.now) × (answer_room ≤ length out.now) }
    ensures { IfOk result (λ put. put + answer_room ≤ length out.now) }
{
    if ANSWER_ROOM <= out.len() - put {
        return Ok(put);
    }
    rt.write_all(&out[..put])?;
    Ok(0)
}

// Answers the lines that end in a piece, and writes out all answers. It says how many bytes of a line are held behind the piece.
fn answer_piece(
    rt: &HostRuntime,
    code: &[u32],
    entry: u32,
    groups: u32,
    piece: &[u8],
    line: &mut [u8],
    work_area: &mut [u32],
    results: &mut [u32],
    out: &mut [u8],
    held: usize,
) -> io::Result<usize>
    requires lent { Lent code.now entry groups work_area.old results.old }
    requires held_le_held_limit { (held ≤ held_limit) × (held_limit ≤ length line.old) × (answer_room ≤ length out.old) }
    ensures { IfOk result (λ have. have ≤ held_limit) }
{
    let mut at: usize = 0;
    let mut have = held;
    let mut put: usize = 0;
    // no `for`: a step goes on by as many bytes as a line has, and is tried again for the room that is left, so that the position is its answer
    while at < piece.len() {
        let p = Progress { at, have, put };
        let q = advance(code, entry, groups, piece, line, work_area, results, out, p);
        at = q.at;
        have = q.have;
        put = make_room(rt, out, q.put)?;
    }
    rt.write_all(&out[..put])?;
    Ok(have)
}

// Reads a piece, and says how many bytes came; none where the input is over. Input that fails is over, and it says why.
fn hear<R: Read>(rt: &HostRuntime, input: &mut R, piece: &mut [u8]) -> Option<usize>
    ensures { IfSome result (λ n. n ≤ length piece.old) }
{
    match read_some(input, piece) {
        Ok(read) => read,
        Err(why) => {
            fail(rt, b"standard input", why);
            None
        }
    }
}

// Answers the last piece, if it is not empty.
fn end_input(
    rt: &HostRuntime,
    code: &[u32],
    entry: u32,
    groups: u32,
    held: &[u8],
    work_area: &mut [u32],
    results: &mut [u32],
    out: &mut [u8],
) -> io::Result<()>
    requires lent { Lent code.now entry groups work_area.old results.old }
    requires answer_room_in_bounds { answer_room ≤ length out.old }
{
    let put = finish(code, entry, groups, held, work_area, results, out, 0);
    rt.write_all(&out[..put])
}

// Answers all lines of the input. The reads are counted because a loop has to end, up to a number that no run reaches.
pub(crate) fn answer_input<R: Read>(
    rt: &HostRuntime,
    input: &mut R,
    code: &[u32],
    entry: u32,
    groups: u32,
    piece: &mut [u8],
    line: &mut [u8],
    work_area: &mut [u32],
    results: &mut [u32],
    out: &mut [u8],
) -> io::Result<()>
    requires lent { Lent code.now entry groups work_area.old results.old }
    requires held_limit_in_bounds { (held_limit ≤ length line.old) × (answer_room ≤ length out.old) }
{
    let mut have: usize = 0;
    for _ in 0..u64::MAX {
        let Some(n) = hear(rt, input, piece) else {
            return end_input(
                rt,
                code,
                entry,
                groups,
                &line[..have],
                work_area,
                results,
                out,
            );
        };
        have = answer_piece(
            rt,
            code,
            entry,
            groups,
            &piece[..n],
            line,
            work_area,
            results,
            out,
            have,
        )?;
    }
    Ok(())
}
