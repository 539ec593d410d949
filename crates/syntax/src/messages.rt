// What each reason means, in words.
use crate::{GROUP_LIMIT, Reason, Refusal};
use std::error::Error;
use std::fmt;

impl fmt::Display for Reason {
    fn fmt<W: fmt::Write>(&self, f: &mut fmt::Formatter<W>) -> fmt::Result {
        if *self == Reason::TooManyGroups {
            return write!(f, "one group too many; a rule has at most {GROUP_LIMIT}");
        }
        f.write_str(match self {
            Reason::RuleTooLong => "the rule has more than 1000 bytes",
            Reason::SubjectTooLong => "the line has more than 65535 bytes",
            Reason::UnknownFlag => "a flag that there is not",
            Reason::BudgetTooLarge => "the budget is over 100000",
            Reason::RuleAreaShort => "the rule area is too short",
            Reason::WorkAreaShort => "the work area is too short",
            Reason::ResultAreaShort => "the result area is too short",
            Reason::NameIndexShort => "the name index is too short",
            Reason::WrittenAreaShort => "the area for the card, or for its rule, is too short",
            Reason::TrailingBackslash => "a backslash with nothing behind it",
            Reason::UnknownEscape => "this escape may not stand here",
            Reason::MalformedEscape =>
                "the number or letter of this escape is missing, malformed, unclosed or too large",
            Reason::NoSuchGroup => "a reference to a group that the rule has not",
            Reason::UnclosedClass => "this class is not closed by ]",
            Reason::BadRange =>
                "a range that runs backwards, or with a set of bytes at one of its ends",
            Reason::UnknownSet => "no set has this name",
            Reason::NothingToRepeat => "a repeat with nothing before it that it could repeat",
            Reason::BadBraces =>
                "a { that begins no repeat, or a repeat over 255 or with its bounds the wrong way round",
            Reason::RepeatOnRepeat => "a repeat of a repeat",
            Reason::UnclosedGroup => "this bracket is not closed by )",
            Reason::UnopenedGroup => "a ) that closes nothing",
            Reason::UnknownGroup => "(? is followed by none of : < > = and !",
            Reason::TooManyGroups => "one group too many; a rule has at most ",
            Reason::TooDeep => "the 25th bracket inside another; they nest at most 24 deep",
            Reason::BadName => "a name is missing, malformed or not closed",
            Reason::NameTwice => "this name is used twice",
            Reason::BarredReference => "a reference, which the depot profile does not allow",
            Reason::IdleRepeat =>
                "a repeat without upper bound of what may take no bytes, which the depot profile does not allow",
            Reason::MixedRange =>
                "a range whose ends are not two digits, two upper or two lower letters, as the depot profile wants them",
            Reason::UnknownKind =>
                "a record begins with a byte that is none of the kinds 1, 2 and 3",
            Reason::CardCutShort => "it ends before its last record does",
            Reason::WrongRecords =>
                "its records are in the wrong order, or not as many as the rule's length needs",
            Reason::StrayBytes =>
                "a byte that pads the rule is not 00, or bytes stand behind the last record",
            Reason::WrongGroupNumber => "the number of groups that it says is not the rule's",
            Reason::HeldOrLook => "this looks ahead or holds on, which a check does not follow",
            Reason::TooManyBranches =>
                "the 257th branch begins behind this bar; a check follows at most 256",
        })
    }
}

// The number of the reason, and the place.
impl fmt::Display for Refusal {
    fn fmt<W: fmt::Write>(&self, f: &mut fmt::Formatter<W>) -> fmt::Result {
        write!(f, "{} at {}", u32::from(self.reason), self.place)
    }
}

impl Error for Refusal {}
