// The fixed markup: what the page begins and ends with, its counts, and the head of a line's part.
use crate::shown::put_shown;
use office::{ROOM, put, put_number};

// How the page looks: the text, and what is the same on every screen.
fn put_style(rt: &HostRuntime, out: &mut [u8; ROOM], at: usize) -> usize {
    put(
        rt,
        out,
        at,
        b"<style>\n\
:root{color-scheme:light}\n\
body{margin:0 auto;max-width:62rem;padding:1rem;font:1rem/1.5 system-ui,sans-serif;color:#1a1a1a;background:#fff}\n\
h1{font-size:1.5rem;margin:.5rem 0}\n\
h2{font-size:1.15rem;margin:1.5rem 0 .5rem}\n\
h3{font-size:1rem;margin:0 0 .5rem}\n\
h4{font-size:.85rem;margin:.75rem 0 .25rem;color:#555}\n\
p{margin:.25rem 0}\n\
ul{list-style:none;display:flex;flex-wrap:wrap;gap:.4rem;margin:.25rem 0;padding:0}\n\
li{padding:.1rem .5rem;border-radius:.25rem;border:1px solid #bbb;overflow-wrap:anywhere}\n\
li b{font-weight:600}\n\
.counts li{padding:.4rem .8rem}\n\
.counts b{display:block;font-size:1.3rem}\n\
code,.line{font-family:ui-monospace,monospace}\n\
.line{white-space:pre-wrap;overflow-wrap:anywhere;background:#f5f5f2;border-radius:.25rem;padding:.4rem .6rem}\n\
code{white-space:pre-wrap;overflow-wrap:anywhere}\n\
article{border:1px solid #ccc;border-left:.4rem solid #888;border-radius:.25rem;padding:.75rem;margin:0 0 1rem}\n\
",
    )
}

// The colours. Text on them has a contrast of ten to one or more.
fn put_colours(rt: &HostRuntime, out: &mut [u8; ROOM], at: usize) -> usize {
    put(
        rt,
        out,
        at,
        b".f0{background:#cfe3ff;border-color:#1f5fbf}\n\
.f1{background:#ffe0b8;border-color:#b35c00}\n\
.f2{background:#d3f0c8;border-color:#2f7d1f}\n\
.f3{background:#f6cfe8;border-color:#a8237d}\n\
.f4{background:#e0d5fb;border-color:#5b3cc4}\n\
.f5{background:#c9eeee;border-color:#0b7373}\n\
.f6{background:#fbf0a6;border-color:#7d6a00}\n\
.f7{background:#fbd0cb;border-color:#b3261e}\n\
.line span{border-bottom-width:2px;border-bottom-style:solid;border-radius:.15rem}\n\
.t{border-color:#999}\n\
.fit{background:#d3f0c8;border-color:#2f7d1f}\n\
mark{background:#ffe08a;color:#1a1a1a;border-bottom:2px solid #7d6a00}\n\
mark.stop{background:#b3261e;color:#fff;border-color:#5c0f0a;padding:0 .1em}\n\
.a{border-left-color:#b35c00}\n\
.n{border-left-color:#b3261e}\n\
.e{border-left-color:#5b3cc4}\n\
#a:not(:checked)~main .a,#n:not(:checked)~main .n,#e:not(:checked)~main .e{display:none}\n\
input{position:absolute;opacity:0}\n\
label{display:inline-block;margin:.25rem 1rem 0 0;cursor:pointer}\n\
label::before{content:'';display:inline-block;width:.7em;height:.7em;margin-right:.45em;border:1px solid #555;border-radius:.15em}\n\
:checked+label::before{background:#1f5fbf;box-shadow:inset 0 0 0 2px #fff}\n\
:focus-visible+label{outline:2px solid #1f5fbf;outline-offset:2px}\n\
main{margin-top:.75rem}\n\
@media print{*{-webkit-print-color-adjust:exact;print-color-adjust:exact}input,label{display:none}article{break-inside:avoid}}\n\
</style>\n",
    )
}

// The page up to its counts.
pub fn put_head(rt: &HostRuntime, out: &mut [u8; ROOM], at: usize) -> usize {
    let mut p = put(
        rt,
        out,
        at,
        b"<!DOCTYPE html>\n\
<html lang=\"en\">\n\
<head>\n\
<meta charset=\"utf-8\">\n\
<meta http-equiv=\"Content-Security-Policy\" content=\"default-src 'none'; style-src 'unsafe-inline'\">\n\
<meta name=\"viewport\" content=\"width=device-width, initial-scale=1\">\n\
<title>Lines that need a person</title>\n",
    );
    p = put_style(rt, out, p);
    p = put_colours(rt, out, p);
    put(
        rt,
        out,
        p,
        b"</head>\n<body>\n<h1>Lines that need a person</h1>\n",
    )
}

// How many lines there are of a kind.
fn put_count(rt: &HostRuntime, out: &mut [u8; ROOM], at: usize, n: u64, kind: &[u8]) -> usize {
    let p = put_number(rt, out, at, b"<li><b>", n, b"</b> ");
    let q = put(rt, out, p, kind);
    put(rt, out, q, b"</li>\n")
}

// How many lines need nobody. The report and the table call them by words of their own.
fn put_matched(
    rt: &HostRuntime,
    out: &mut [u8; ROOM],
    at: usize,
    by_fields: bool,
    n: u64,
) -> usize {
    if by_fields {
        return put_count(rt, out, at, n, b"matched");
    }
    put_count(rt, out, at, n, b"matched once")
}

// How many lines are undecided, a word that only the table has.
fn put_undecided(
    rt: &HostRuntime,
    out: &mut [u8; ROOM],
    at: usize,
    by_fields: bool,
    n: u64,
) -> usize {
    if by_fields {
        return put_count(rt, out, at, n, b"undecided");
    }
    at
}

// How many lines there are of each kind.
pub fn put_counts(
    rt: &HostRuntime,
    out: &mut [u8; ROOM],
    at: usize,
    by_fields: bool,
    lines: u64,
    matched: u64,
    ambiguous: u64,
    undecided: u64,
    unmatched: u64,
    exhausted: u64,
    too_long: u64,
) -> usize {
    let mut p = put(rt, out, at, b"<ul class=\"counts\">\n");
    p = put_count(rt, out, p, lines, b"lines");
    p = put_matched(rt, out, p, by_fields, matched);
    p = put_count(rt, out, p, ambiguous, b"ambiguous");
    p = put_undecided(rt, out, p, by_fields, undecided);
    p = put_count(rt, out, p, unmatched, b"not matched");
    p = put_count(rt, out, p, exhausted, b"exhausted");
    p = put_count(rt, out, p, too_long, b"too long");
    put(rt, out, p, b"</ul>\n")
}

// The rule, its flags and the budget. Its fields follow.
pub fn put_rule(
    rt: &HostRuntime,
    out: &mut [u8; ROOM],
    at: usize,
    rule: &[u8],
    flags: u32,
    budget: u32,
) -> usize {
    let mut p = put(
        rt,
        out,
        at,
        b"<h2>The rule and its fields</h2>\n<p class=\"line\"><b>rule </b>",
    );
    p = put_shown(rt, out, p, rule);
    p = put_number(rt, out, p, b"</p>\n<p>flags ", flags as u64, b"");
    put_number(
        rt,
        out,
        p,
        b", up to ",
        budget as u64,
        b" steps from each start in a line</p>\n",
    )
}

// The boxes by which kinds of lines are hidden, and what each is called. Their style alone does it.
fn put_boxes(rt: &HostRuntime, out: &mut [u8; ROOM], at: usize, by_fields: bool) -> usize {
    let p = put(
        rt,
        out,
        at,
        b"<input type=\"checkbox\" id=\"a\" checked><label for=\"a\">ambiguous</label>\n\
<input type=\"checkbox\" id=\"n\" checked><label for=\"n\">not matched</label>\n\
<input type=\"checkbox\" id=\"e\" checked><label for=\"e\">",
    );
    if by_fields {
        return put(rt, out, p, b"undecided, exhausted or too long</label>\n");
    }
    put(rt, out, p, b"exhausted or too long</label>\n")
}

// What the marks mean, and which kinds are shown, or that no line needs a person. The lines follow.
pub fn put_note(
    rt: &HostRuntime,
    out: &mut [u8; ROOM],
    at: usize,
    by_fields: bool,
    lines: u64,
    matched: u64,
) -> usize {
    let mut p = put(rt, out, at, b"<h2>Lines</h2>\n");
    if lines == matched {
        return put(rt, out, p, b"<p>No line needs a person.</p>\n<main>\n");
    }
    p = put(
        rt,
        out,
        p,
        b"<p>Lines that are matched, and not ambiguous, are not shown. <span class=\"fit\">Green</span> is what fits of a line that is not matched, \
<mark class=\"stop\">red</mark> the place where that ends, and <mark>yellow</mark> what the rule expected there. &#8249;0A&#8250; stands for the byte \
of that number, which cannot be printed.</p>\n",
    );
    p = put_boxes(rt, out, p, by_fields);
    put(rt, out, p, b"<main>\n")
}

// The head of a line's part: its kind, by a letter, its number, and what is said of it.
pub fn put_card(
    rt: &HostRuntime,
    out: &mut [u8; ROOM],
    at: usize,
    kind: &[u8],
    number: u64,
    said: &[u8],
) -> usize {
    let mut p = put(rt, out, at, b"<article class=\"");
    p = put(rt, out, p, kind);
    p = put_number(rt, out, p, b"\">\n<h3>Line ", number, b": ");
    p = put(rt, out, p, said);
    put(rt, out, p, b"</h3>\n")
}

pub fn put_card_end(rt: &HostRuntime, out: &mut [u8; ROOM], at: usize) -> usize {
    put(rt, out, at, b"</article>\n")
}

// At which start the steps were used up, after so many readings.
pub fn put_spent(
    rt: &HostRuntime,
    out: &mut [u8; ROOM],
    at: usize,
    start: u32,
    readings: usize,
) -> usize {
    let p = put_number(
        rt,
        out,
        at,
        b"<p>The steps were used up at column ",
        start as u64,
        b"",
    );
    put_number(
        rt,
        out,
        p,
        b"; readings until then: ",
        readings as u64,
        b".</p>\n",
    )
}

// That there are more readings than so many.
pub fn put_more(rt: &HostRuntime, out: &mut [u8; ROOM], at: usize, readings: usize) -> usize {
    put_number(
        rt,
        out,
        at,
        b"<p>There are more than ",
        readings as u64,
        b" readings.</p>\n",
    )
}

// The end of the page. Where not as many lines were shown as were counted, it says so.
pub fn put_tail(
    rt: &HostRuntime,
    out: &mut [u8; ROOM],
    at: usize,
    counted: u64,
    seen: u64,
) -> usize {
    let p = put(rt, out, at, b"</main>\n");
    if counted == seen {
        return put(rt, out, p, b"</body>\n</html>\n");
    }
    put_number(
        rt,
        out,
        p,
        b"<p><b>The lines changed while the page was written, or could not be read again; lines seen the second time: ",
        seen,
        b".</b></p>\n</body>\n</html>\n",
    )
}
