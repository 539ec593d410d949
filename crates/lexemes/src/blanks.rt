// What the flag `x` has skipped: blanks, and comments, each up to the end of its line.
ghost use Rattle.std.specs.Prelude.{◌≡◌, false, not, ◌&&◌, ◌+◌, eqb, drop, if◌then◌else◌};
ghost use Rattle.charset.specs.declared.Named.TheVariants.{Space};
ghost use Rattle.charset.specs.Named.{in_named};
ghost use Rattle.syntax.specs.Grammar.{skipped, behind_blanks};

use charset::{Named, in_named};
use syntax::Flags;

// A comment begins at the first, and ends at the second.
const NUMBER_SIGN: u8 = b'#';

const LINE_FEED: u8 = 0x0A;

// Whether a byte ends what is skipped. Within a comment none does.
fn ends_blanks(comment: bool, b: u8) -> bool
    ensures { result ≡ (not comment && not (in_named Space b) && not (eqb b 35)) }
{
    if comment {
        return false;
    }
    if in_named(Named::Space, b) {
        return false;
    }
    b != NUMBER_SIGN
}

// Whether what follows a byte that is skipped stands within a comment.
fn comment_after(comment: bool, b: u8) -> bool
    ensures { result ≡ (if comment then not (eqb b 10) else eqb b 35) }
{
    if comment {
        return b != LINE_FEED;
    }
    b == NUMBER_SIGN
}

// The position behind the blanks and comments at a position.
fn skip_blanks(rule: &[u8], from: usize) -> usize
    ensures { result ≡ from + skipped false (drop from rule.now) }
{
    let mut comment = false;
    for i in from..rule.len() {
        let b = rule[i];
        if ends_blanks(comment, b) {
            return i;
        }
        comment = comment_after(comment, b);
    }
    from.max(rule.len())
}

// The position behind what is skipped from a position on. Without `x` nothing is.
pub fn behind_blanks(rule: &[u8], flags: u32, at: usize) -> usize
    ensures { result ≡ behind_blanks rule.now flags at }
{
    if Flags(flags).is_extended() {
        return skip_blanks(rule, at);
    }
    at
}
