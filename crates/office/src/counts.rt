// What a report or a page counts.

// All lines, and those of each kind. The report counts each line as one of `once`, `ambiguous`, `unmatched`, `exhausted` and `too_long`; the table has
// `undecided` besides.
#[derive(Clone, Copy, Debug, Default, PartialEq, Eq)]
pub struct Counts {
    pub lines: u64,
    pub once: u64,
    pub ambiguous: u64,
    // of these, the lines that have more readings than are shown
    pub many: u64,
    pub undecided: u64,
    pub unmatched: u64,
    pub exhausted: u64,
    // of these, the lines that had two or more readings until then
    pub unsettled: u64,
    pub too_long: u64,
    // lines that were shown with a dot for a byte
    pub dotted: u64,
}

// One more. There are no 2^64 lines.
pub fn count(lines: &mut u64) {
    *lines = lines.saturating_add(1);
}
