// What a rule is refused for, and the quantities that the code shares with the definitions. Rules themselves are defined in specs/.
#![tactic(auto)]

ghost use Rattle.std.specs.Prelude.{◌≡◌};
ghost use Rattle.syntax.specs.Compiled.{assertion_word, most_word, greed_word};
ghost use Rattle.syntax.specs.Refusals.{number_of};

mod flags;
mod limits;
mod messages;
pub mod node;

pub use flags::Flags;
pub use limits::{
    GROUP_LIMIT, NAME_ENTRY, NAME_INDEX_NEED, NAME_LIMIT, NESTING_LIMIT, REGISTERS, ROW_LENGTH,
    SPANS_LENGTH, group_limit, name_limit,
};
use node::UNLIMITED;

// Why a call is refused. The place stands beside it, in the refusal.
#[derive(Clone, Copy, Debug, PartialEq, Eq)]
pub enum Reason {
    RuleTooLong,
    SubjectTooLong,
    UnknownFlag,
    BudgetTooLarge,
    RuleAreaShort,
    WorkAreaShort,
    ResultAreaShort,
    NameIndexShort,
    // of what a card is written into, or its rule's bytes
    WrittenAreaShort,
    TrailingBackslash,
    UnknownEscape,
    MalformedEscape,
    NoSuchGroup,
    UnclosedClass,
    BadRange,
    UnknownSet,
    NothingToRepeat,
    BadBraces,
    RepeatOnRepeat,
    UnclosedGroup,
    UnopenedGroup,
    UnknownGroup,
    TooManyGroups,
    TooDeep,
    BadName,
    NameTwice,
    BarredReference,
    IdleRepeat,
    MixedRange,
    UnknownKind,
    CardCutShort,
    WrongRecords,
    StrayBytes,
    WrongGroupNumber,
    // of a rule that a proposed reading is checked with
    HeldOrLook,
    TooManyBranches,
}

// The zero-width assertions. The flag `m` is settled when a rule is read.
#[derive(Clone, Copy, Debug, PartialEq, Eq)]
pub enum Assertion {
    // `\A`, and `^` without `m`
    TextStart,
    // `^` under `m`
    LineStart,
    // `\z`
    TextEnd,
    // `\Z`, and `$` without `m`
    LastLineEnd,
    // `$` under `m`
    LineEnd,
    // `\b`
    WordBoundary,
    // `\B`
    NoWordBoundary,
}

// The number of an assertion.
impl From<Assertion> for u32 {
    ghost from_gives = { λ assertion word. word ≡ assertion_word assertion };

    fn from(assertion: Assertion) -> u32 {
        match assertion {
            Assertion::TextStart => 0,
            Assertion::LineStart => 1,
            Assertion::TextEnd => 2,
            Assertion::LastLineEnd => 3,
            Assertion::LineEnd => 4,
            Assertion::WordBoundary => 5,
            Assertion::NoWordBoundary => 6,
        }
    }
}

#[derive(Clone, Copy, Debug, PartialEq, Eq)]
pub enum Greed {
    Greedy,
    Lazy,
}

// The number of a repeat's greed.
impl From<Greed> for u32 {
    ghost from_gives = { λ greed word. word ≡ greed_word greed };

    fn from(greed: Greed) -> u32 {
        match greed {
            Greed::Greedy => 0,
            Greed::Lazy => 1,
        }
    }
}

// The most rounds that a repeat makes. An `Option<u32>` would be no plainer: the tree of a rule and the theorems over it speak of `AtMost` and `Unlimited`.
#[derive(Clone, Copy, Debug, PartialEq, Eq)]
pub enum Most {
    AtMost(u32),
    Unlimited,
}

// The number of a repeat's maximum.
impl From<Most> for u32 {
    ghost from_gives = { λ most word. word ≡ most_word most };

    fn from(most: Most) -> u32 {
        match most {
            Most::AtMost(m) => m,
            Most::Unlimited => UNLIMITED,
        }
    }
}

// What stands where a repeat may stand.
#[derive(Clone, Copy, Debug, PartialEq, Eq)]
pub enum Quantifier {
    Absent,
    // a `{` that begins no well-formed repeat
    Stray,
    // a well-formed repeat with a bound over 255, or n > m
    Unfit,
    // minimum, maximum, greed, whether it is possessive, and the position behind it
    Times(u32, Most, Greed, bool, usize),
}

// What a group makes of its inside.
#[derive(Clone, Copy, Debug, PartialEq, Eq)]
pub enum Form {
    // `(?:..)`
    Grouped,
    // `(..)` and `(?<name>..)`, by its number
    Captured(u32),
    // `(?>..)`
    Held,
    // `(?=..)`
    Ahead,
    // `(?!..)`
    NotAhead,
}

// A refusal: the place in the rule, and the reason.
#[derive(Clone, Copy, Debug, PartialEq, Eq)]
pub struct Refusal {
    pub place: usize,
    pub reason: Reason,
}

impl Refusal {
    pub fn at(place: usize, reason: Reason) -> Refusal
        ensures { result ≡ record { place = place; reason = reason } }
    {
        Refusal { place, reason }
    }
}

// What was read of a rule, and the place behind it, which comes first as that of a refusal does: the two then lie alike in a `Reading`.
#[derive(Clone, Copy, Debug, PartialEq, Eq)]
pub struct Parsed<T> {
    pub next: usize,
    pub value: T,
}

// What reading a part of a rule gives.
pub type Reading<T> = Result<Parsed<T>, Refusal>;

// The number of a reason.
impl From<Reason> for u32 {
    ghost from_gives = { λ reason number. number ≡ number_of reason };

    fn from(reason: Reason) -> u32 {
        match reason {
            Reason::RuleTooLong => 1,
            Reason::SubjectTooLong => 2,
            Reason::UnknownFlag => 3,
            Reason::BudgetTooLarge => 4,
            Reason::RuleAreaShort => 5,
            Reason::WorkAreaShort => 6,
            Reason::ResultAreaShort => 7,
            Reason::NameIndexShort => 8,
            Reason::WrittenAreaShort => 9,
            Reason::TrailingBackslash => 10,
            Reason::UnknownEscape => 11,
            Reason::MalformedEscape => 12,
            Reason::NoSuchGroup => 13,
            Reason::UnclosedClass => 14,
            Reason::BadRange => 15,
            Reason::UnknownSet => 16,
            Reason::NothingToRepeat => 17,
            Reason::BadBraces => 18,
            Reason::RepeatOnRepeat => 19,
            Reason::UnclosedGroup => 20,
            Reason::UnopenedGroup => 21,
            Reason::UnknownGroup => 22,
            Reason::TooManyGroups => 23,
            Reason::TooDeep => 24,
            Reason::BadName => 25,
            Reason::NameTwice => 26,
            Reason::BarredReference => 27,
            Reason::IdleRepeat => 28,
            Reason::MixedRange => 29,
            Reason::UnknownKind => 30,
            Reason::CardCutShort => 31,
            Reason::WrongRecords => 32,
            Reason::StrayBytes => 33,
            Reason::WrongGroupNumber => 34,
            Reason::HeldOrLook => 35,
            Reason::TooManyBranches => 36,
        }
    }
}
