// `\R`, which is no byte item.
ghost use Rattle.std.specs.Prelude.{◌≡◌, ◌<◌, length};
ghost use Rattle.syntax.specs.Grammar.{breaks_line};

use crate::numbers::peek;

const BACKSLASH: u32 = b'\\' as u32;

const CAPITAL_R: u32 = b'R' as u32;

// Whether `\R` stands at a position.
pub fn breaks_line(rule: &[u8], at: usize) -> bool
    requires { at < length rule.now }
    ensures { result ≡ breaks_line rule.now at }
{
    if peek(rule, at) != BACKSLASH {
        return false;
    }
    peek(rule, at + 1) == CAPITAL_R
}
