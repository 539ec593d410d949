// The outcomes of an explanation: eleven numbers.
ghost use Rattle.std.specs.Prelude.{◌≡◌, ◌++◌};
ghost use Rattle.semantics.specs.Explanations.{nowhere as nothing};
ghost use Rattle.greatest.specs.Best.{failure_of};
ghost use Rattle.explaining.specs.Explanations.{explanation_of};
ghost use Rattle.answers.specs.Answers.{numbers, failure_numbers, explain_numbers};
ghost use Rattle.answers.specs.Laws.{ExplainPlaced};

use batching::{high_half, low_half};
use explaining::Explanation;
use greatest::Failed;
use syntax::Refusal;

// Nothing failed that could be told.
fn nowhere() -> Failed
    ensures { failure_of result ≡ nothing }
{
    Failed {
        start: 0,
        at: 0,
        place: 0,
    }
}

// Writes an explanation's numbers: those of an answer without rows, then the furthest failure and the closest attempt.
fn tell_failures(
    answer: &mut [u32; 11],
    kind: u32,
    which: u32,
    place: u32,
    steps: u64,
    furthest: Failed,
    closest: Failed,
)
    ensures { answer.new ≡ numbers kind which place steps 0 ++ failure_numbers (failure_of furthest) (failure_of closest) }
{
    *answer = [
        kind,
        which,
        place,
        low_half(steps),
        high_half(steps),
        0,
        furthest.at,
        furthest.place,
        closest.start,
        closest.at,
        closest.place,
    ];
}

// The numbers of an explanation that has no failure to tell.
fn tell_no_failure(answer: &mut [u32; 11], kind: u32, which: u32, place: u32, steps: u64)
    ensures { answer.new ≡ numbers kind which place steps 0 ++ failure_numbers nothing nothing }
{
    let none = nowhere();
    tell_failures(answer, kind, which, place, steps, none, none);
}

pub fn tell_explanation(answer: &mut [u32; 11], outcome: Result<Explanation, Refusal>)
    requires { ExplainPlaced (explanation_of outcome) }
    ensures { answer.new ≡ explain_numbers (explanation_of outcome) }
{
    match outcome {
        Ok(Explanation::Matched(steps)) => tell_no_failure(answer, 0, 0, 0, steps),
        Ok(Explanation::NotMatched(steps, furthest, closest)) => {
            tell_failures(answer, 1, 0, 0, steps, furthest, closest);
        }
        Ok(Explanation::Exhausted(start, steps)) => tell_no_failure(answer, 2, start, 0, steps),
        Err(f) => {
            let number = u32::from(f.reason);
            tell_no_failure(answer, 3, number, f.place as u32, 0);
        }
    }
}
