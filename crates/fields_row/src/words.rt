// The word for a line.
ghost use Rattle.std.specs.Prelude.{◌≡◌, ◌+◌, ◌≤◌, length};
ghost use Rattle.text.specs.Numbers.{decimal};
ghost use Rattle.fields_text.specs.Table.{opening};
ghost use Rattle.fields_text.specs.Promises.{WroteUpTo};
ghost use Rattle.fields_row.specs.Fields.{text_of, kind_of};

use fields_text::write_opening;

// The bytes of a line's number, a tab and its word, at most.
pub const OPENING_ROOM: usize = 32;

#[derive(Clone, Copy, Debug, PartialEq, Eq)]
pub enum Word {
    Matched,
    Ambiguous,
    Undecided,
    NotMatched,
    Exhausted,
    TooLong,
}

impl Word {
    // The kind of an answer, as the lookup asks for it: 0 where there is a match.
    #[tactic(auto, unfolding(crate::specs::Fields::kind_of))]
    pub fn kind(self) -> u32
        ensures { result ≡ kind_of self }
    {
        match self {
            Word::Matched | Word::Ambiguous | Word::Undecided => 0,
            Word::NotMatched | Word::Exhausted | Word::TooLong => 1,
        }
    }

    // What the table has for it.
    #[tactic(auto, unfolding(crate::specs::Fields::text_of))]
    fn text(self) -> &'static [u8]
        ensures value { result.now ≡ text_of self }
        ensures few { length result.now ≤ 11 }
    {
        match self {
            Word::Matched => b"matched",
            Word::Ambiguous => b"ambiguous",
            Word::Undecided => b"undecided",
            Word::NotMatched => b"not matched",
            Word::Exhausted => b"exhausted",
            Word::TooLong => b"too long",
        }
    }
}

// Writes the first two columns of a line's row.
pub fn open_row(number: u64, word: Word, out: &mut [u8], at: usize) -> usize
    requires { at + 32 ≤ length out.old }
    ensures { WroteUpTo 32 out.old at (opening (decimal number) (text_of word)) out.new result }
{
    write_opening(number, word.text(), out, at)
}
