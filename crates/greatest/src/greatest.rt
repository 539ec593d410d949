// The two failures that are told, as a walk finds them: of all failures so far the first with the greatest position, and the first with the greatest
// distance from its start. A later one takes its place only if it is strictly greater, which keeps the first of those that are equal.
ghost use Rattle.std.specs.Prelude.{◌≡◌, Some, ◌∷◌, [], ℕ};
ghost use Rattle.std.proofs.Math.Option.{some};
ghost use Rattle.semantics.specs.Explanations.{Failure, greater, reach};
ghost use Rattle.greatest.specs.Best.{failure_of, Blank, Keeps};
ghost use Rattle.greatest.specs.Leading.{kept_of, listed};

use plain::Miss;

// An item that failed: the start of the attempt, where in the subject it was tried, and its place in the rule.
#[derive(Clone, Copy, Debug, PartialEq, Eq)]
pub struct Failed {
    pub start: u32,
    pub at: u32,
    pub place: u32,
}

// The furthest failure and the closest attempt so far.
#[derive(Clone, Copy, Debug, PartialEq, Eq)]
pub struct Best {
    pub furthest: Failed,
    pub closest: Failed,
}

// What is told where nothing failed.
pub fn blank() -> Best
    ensures { Blank result }
{
    let nowhere = Failed {
        start: 0,
        at: 0,
        place: 0,
    };
    Best {
        furthest: nowhere,
        closest: nowhere,
    }
}

// How far the attempt had come when the item failed.
fn reach_of(x: Failed) -> u32
    ensures { result ≡ reach (failure_of x) }
{
    x.at.saturating_sub(x.start)
}

// The greater of the best so far and the next failure, by their measures.
fn greater_of(best: Failed, most: u32, x: Failed, more: u32) -> Failed
    ensures { (by : Failure → ℕ) → most ≡ by (failure_of best) → more ≡ by (failure_of x) → some (failure_of result) ≡ greater by (some (failure_of best)) (failure_of x) }
{
    if most < more {
        return x;
    }
    best
}

// The best with one more failure.
fn keep(best: Option<Best>, x: Failed) -> Best
    ensures { Keeps best (failure_of x ∷ []) (Some result) }
{
    let Some(Best { furthest, closest }) = best else {
        return Best {
            furthest: x,
            closest: x,
        };
    };
    Best {
        furthest: greater_of(furthest, furthest.at, x, x.at),
        closest: greater_of(closest, reach_of(closest), x, reach_of(x)),
    }
}

// The best after the walk from `start`, by what was kept of it.
pub fn consider(best: Option<Best>, start: u32, kept: Option<Miss>) -> Option<Best>
    ensures { Keeps best (listed (kept_of start kept)) result }
{
    match kept {
        Some(Miss { at, place }) => Some(keep(best, Failed { start, at, place })),
        None => best,
    }
}
