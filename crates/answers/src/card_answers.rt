// The outcomes of the calls on rule cards: six numbers of one that is written, nine of one that is read.
ghost use Rattle.std.specs.Prelude.{◌≡◌};
ghost use Rattle.cards.specs.Answers.{written_of, read_of};
ghost use Rattle.answers.specs.Cards.{write_numbers, read_numbers};
ghost use Rattle.answers.specs.CardLaws.{WritePlaced, ReadPlaced};

use crate::{tell, tell_refusal};
use batching::low_half;
use cards::Card;
use syntax::Refusal;

pub fn tell_written(answer: &mut [u32; 6], outcome: Result<usize, Refusal>)
    requires { WritePlaced (written_of outcome) }
    ensures { answer.new ≡ write_numbers (written_of outcome) }
{
    match outcome {
        Ok(n) => tell(answer, 0, 0, 0, 0, n),
        Err(f) => tell_refusal(answer, f),
    }
}

pub fn tell_read(answer: &mut [u32; 9], outcome: Result<Card, Refusal>)
    requires { ReadPlaced (read_of outcome) }
    ensures { answer.new ≡ read_numbers (read_of outcome) }
{
    match outcome {
        Ok(card) => {
            let length = low_half(card.size as u64);
            *answer = [0, 0, 0, 0, 0, length, card.flags, card.budget, card.groups];
        }
        Err(f) => {
            let number = u32::from(f.reason);
            *answer = [3, number, f.place as u32, 0, 0, 0, 0, 0, 0];
        }
    }
}
