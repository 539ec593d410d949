// What the C interface tells of an outcome: six numbers, or eleven of an explanation, and nine of a card that is read. `include/terravisco.h` says which.
//
// The calls are not made here: `terravisco` makes each, and has its outcome told.
#![tactic(auto)]

mod calls;
mod card_answers;
mod explanations;

ghost use Rattle.std.specs.Prelude.{◌≡◌, ◌≤◌};
ghost use Rattle.syntax.specs.Limits.{rule_limit};
ghost use Rattle.answers.specs.Answers.{numbers, refusal_numbers};

use batching::{high_half, low_half};
pub use calls::{tell_batch, tell_check, tell_listing, tell_match};
pub use card_answers::{tell_read, tell_written};
pub use explanations::tell_explanation;
use syntax::Refusal;

// Writes an answer: the kind, the start or refusal number, the place, the steps in two halves and the rows.
fn tell(answer: &mut [u32; 6], kind: u32, which: u32, place: u32, steps: u64, rows: usize)
    ensures { answer.new ≡ numbers kind which place steps rows }
{
    *answer = [
        kind,
        which,
        place,
        low_half(steps),
        high_half(steps),
        low_half(rows as u64),
    ];
}

// A refusal has the same numbers from a match, a listing, a check and a day's lines.
fn tell_refusal(answer: &mut [u32; 6], f: Refusal)
    requires { f.place ≤ rule_limit }
    ensures { answer.new ≡ refusal_numbers f.place f.reason }
{
    tell(answer, 3, u32::from(f.reason), f.place as u32, 0, 0);
}
