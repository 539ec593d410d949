// The summary of what was counted.
use office::{Counts, ROOM, flush, put, put_number};

// How many there are of a kind, if there are any.
fn put_some(
    rt: &HostRuntime,
    out: &mut [u8; ROOM],
    at: usize,
    before: &[u8],
    n: u64,
    behind: &[u8],
) -> usize {
    if n == 0 {
        return at;
    }
    put_number(rt, out, at, before, n, behind)
}

// The summary, with which the report ends. It says whether the report could be written.
pub(crate) fn summarize(rt: &HostRuntime, counts: Counts, out: &mut [u8; ROOM], at: usize) -> bool {
    let mut p = put_number(rt, out, at, b"\nlines: ", counts.lines, b"");
    p = put_number(rt, out, p, b"\nmatched once: ", counts.once, b"");
    p = put_number(rt, out, p, b"\nambiguous: ", counts.ambiguous, b"");
    p = put_some(
        rt,
        out,
        p,
        b" (with more readings than are shown: ",
        counts.many,
        b")",
    );
    p = put_number(rt, out, p, b"\nnot matched: ", counts.unmatched, b"");
    p = put_number(rt, out, p, b"\nexhausted: ", counts.exhausted, b"");
    p = put_some(rt, out, p, b" (ambiguous already: ", counts.unsettled, b")");
    p = put_number(rt, out, p, b"\ntoo long: ", counts.too_long, b"");
    p = put_some(
        rt,
        out,
        p,
        b"\nA dot may stand for a byte that cannot be shown; lines shown with such a dot: ",
        counts.dotted,
        b"",
    );
    p = put(rt, out, p, b"\n");
    flush(rt, out, p)
}
