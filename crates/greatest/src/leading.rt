// What is kept of the walk from one start: the first of its failures with the greatest position. Within one start it is the furthest failure and the closest
// attempt too.
//
// A `(?!` that fails is told at its inner end, but it was tried when it was entered, before all that is inside. So it keeps a note there: whether it would
// have taken the place of what was kept by then, and where it was tried. If so, it takes that place now, unless a later failure lies further.
ghost use Rattle.std.specs.Prelude.{◌≡◌, ℕ};
ghost use Rattle.greatest.specs.Leading.{better, would_lead, note_of, settled, kept_of, better_if};

use plain::{Miss, Refuted};

// No position is as great.
const NOWHERE: u32 = u32::MAX;

// Whether a failure at a position would take the place of what is kept.
fn leads(kept: Option<Miss>, at: u32) -> bool
    ensures { (start : ℕ) → result ≡ would_lead (kept_of start kept) at }
{
    match kept {
        Some(miss) => miss.at < at,
        None => true,
    }
}

// The note of a `(?!` that is entered at a position: one more than the position if it would take the place of what is kept, else 0. It is a number and no
// `Option`, since a register keeps it (`note_of` of specs/Leading).
pub fn note_of(kept: Option<Miss>, at: u32) -> u32
    ensures { (start : ℕ) → result ≡ note_of (kept_of start kept) at }
{
    if at != NOWHERE && leads(kept, at) {
        return at + 1;
    }
    0
}

// One more failure.
fn further(kept: Option<Miss>, next: Miss) -> Option<Miss>
    ensures { (start : ℕ) → kept_of start result ≡ better start (kept_of start kept) next.place next.at }
{
    if next.at != NOWHERE && leads(kept, next.at) {
        return Some(next);
    }
    kept
}

// What is kept after a move that told this.
pub fn lead(kept: Option<Miss>, missed: Option<Miss>) -> Option<Miss>
    ensures { (start : ℕ) → kept_of start result ≡ better_if start (kept_of start kept) missed }
{
    match missed {
        Some(next) => further(kept, next),
        None => kept,
    }
}

// What is kept after a `(?!` has failed.
pub fn settle(kept: Option<Miss>, refuted: Refuted) -> Option<Miss>
    ensures { (start : ℕ) → kept_of start result ≡ settled start refuted.note refuted.place (kept_of start kept) }
{
    let Some(at) = refuted.note.checked_sub(1) else {
        return kept;
    };
    let first = Miss {
        at,
        place: refuted.place,
    };
    match kept {
        Some(later) if at < later.at => kept,
        _ => Some(first),
    }
}
