// The ends of a range, as the depot profile looks at them: by the bytes' values, however they are written.
ghost use Rattle.std.specs.Prelude.{◌≡◌, ◌&&◌};
ghost use Rattle.charset.specs.Named.{in_named};
ghost use Rattle.syntax.specs.Classes.{alike};

use charset::{Named, in_named};

// Whether a set has both bytes.
fn has_both(set: Named, a: u8, b: u8) -> bool
    ensures { result ≡ (in_named set a && in_named set b) }
{
    if in_named(set, a) {
        return in_named(set, b);
    }
    false
}

// Whether they are both digits, both upper or both lower letters.
pub fn ends_alike(a: u8, b: u8) -> bool
    ensures { result ≡ alike a b }
{
    if has_both(Named::Digit, a, b) {
        return true;
    }
    if has_both(Named::Upper, a, b) {
        return true;
    }
    has_both(Named::Lower, a, b)
}
