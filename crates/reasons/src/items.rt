// The text of an item.
ghost use Rattle.std.specs.Prelude.{◌≡◌, [], ◌<◌, length};
ghost use Rattle.syntax.specs.Grammar.{atom};
ghost use Rattle.reasons.specs.Items.{with_repeat, behind_item, opens_not_ahead, item_end};

use lexemes::{behind_blanks, breaks_line, peek, quantifier_at};
use lexer::item_at;
use syntax::Quantifier;

// Bytes that open a `(?!`, as `peek` gives them.
const OPENING: u32 = b'(' as u32;

const QUESTION: u32 = b'?' as u32;

const EXCLAMATION: u32 = b'!' as u32;

// The position behind the repeat of an item that ends at a position, or that position.
fn with_repeat(rule: &[u8], flags: u32, next: usize) -> usize
    ensures { result ≡ with_repeat rule.now flags next }
{
    let x = quantifier_at(rule, behind_blanks(rule, flags, next));
    match x {
        Quantifier::Absent => next,
        Quantifier::Stray => next,
        Quantifier::Unfit => next,
        Quantifier::Times(_, _, _, _, end) => end,
    }
}

// The position behind the text of an item that is read at a place.
fn token_end(rule: &[u8], flags: u32, at: usize) -> usize
    requires { at < length rule.now }
    ensures { result ≡ behind_item rule.now flags at (atom rule.now flags [] 0 at) }
{
    let mut words = [0; 8];
    match item_at(rule, flags, 0, at, &mut words) {
        Ok(item) => with_repeat(rule, flags, item.next),
        Err(_refusal) => at + 1,
    }
}

// Whether `(?!` stands at a place.
fn opens_not_ahead(rule: &[u8], at: usize) -> bool
    requires { at < length rule.now }
    ensures { result ≡ opens_not_ahead rule.now at }
{
    let b = peek(rule, at);
    if b != OPENING {
        return false;
    }
    let d = peek(rule, at + 1);
    if d != QUESTION {
        return false;
    }
    let e = peek(rule, at + 2);
    e == EXCLAMATION
}

// The position behind the text of the item at a place: `\R` is one too, and a `(?!` is shown by its opening.
pub fn item_end(rule: &[u8], flags: u32, at: usize) -> usize
    requires { at < length rule.now }
    ensures { result ≡ item_end rule.now flags at }
{
    let breaks = breaks_line(rule, at);
    if breaks {
        return with_repeat(rule, flags, at + 2);
    }
    let opens = opens_not_ahead(rule, at);
    if opens {
        return at + 3;
    }
    token_end(rule, flags, at)
}
