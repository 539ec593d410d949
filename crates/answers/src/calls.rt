// The outcomes of the calls that find readings, or check one: six numbers.
ghost use Rattle.std.specs.Prelude.{◌≡◌};
ghost use Rattle.finding.specs.Outcomes.{outcome_of};
ghost use Rattle.gathering.specs.Listing.{listing_of};
ghost use Rattle.batching.specs.Batches.{batch_of};
ghost use Rattle.checking.specs.Verdicts.{verdict_of};
ghost use Rattle.answers.specs.Answers.{match_numbers, list_numbers, batch_numbers, check_numbers};
ghost use Rattle.answers.specs.Laws.{MatchPlaced, ListPlaced, BatchPlaced, CheckPlaced};

use crate::{tell, tell_refusal};
use checking::Verdict;
use finding::Outcome;
use gathering::Listing;
use syntax::Refusal;

pub fn tell_match(answer: &mut [u32; 6], outcome: Outcome)
    requires { MatchPlaced (outcome_of outcome) }
    ensures { answer.new ≡ match_numbers (outcome_of outcome) }
{
    match outcome {
        Outcome::Matched(steps) => tell(answer, 0, 0, 0, steps, 1),
        Outcome::NotMatched(steps) => tell(answer, 1, 0, 0, steps, 0),
        Outcome::Exhausted(start, steps) => tell(answer, 2, start, 0, steps, 0),
        Outcome::Refused(f) => tell_refusal(answer, f),
    }
}

pub fn tell_listing(answer: &mut [u32; 6], outcome: Result<Listing, Refusal>)
    requires { ListPlaced (listing_of outcome) }
    ensures { answer.new ≡ list_numbers (listing_of outcome) }
{
    match outcome {
        Ok(Listing::Complete(rows, steps)) => tell(answer, 0, 0, 0, steps, rows),
        Ok(Listing::Full(rows, steps)) => tell(answer, 1, 0, 0, steps, rows),
        Ok(Listing::Exhausted(start, rows, steps)) => tell(answer, 2, start, 0, steps, rows),
        Err(f) => tell_refusal(answer, f),
    }
}

pub fn tell_batch(answer: &mut [u32; 6], outcome: Result<usize, Refusal>)
    requires { BatchPlaced (batch_of outcome) }
    ensures { answer.new ≡ batch_numbers (batch_of outcome) }
{
    match outcome {
        Ok(lines) => tell(answer, 0, 0, 0, 0, lines),
        Err(f) => tell_refusal(answer, f),
    }
}

pub fn tell_check(answer: &mut [u32; 6], outcome: Result<Verdict, Refusal>)
    requires { CheckPlaced (verdict_of outcome) }
    ensures { answer.new ≡ check_numbers (verdict_of outcome) }
{
    match outcome {
        Ok(Verdict::Reading(steps)) => tell(answer, 0, 0, 0, steps, 1),
        Ok(Verdict::Nothing(steps)) => tell(answer, 1, 0, 0, steps, 0),
        Ok(Verdict::Exhausted(start, steps)) => tell(answer, 2, start, 0, steps, 0),
        Err(f) => tell_refusal(answer, f),
    }
}
