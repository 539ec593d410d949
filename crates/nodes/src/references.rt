// The bytes of a span, compared with those at a position.
ghost use Rattle.std.specs.Prelude.{◌≤◌, ◌≡◌};
ghost use Rattle.charset.specs.Cases.{other_case};
ghost use Rattle.semantics.specs.Items.{same_byte};
ghost use Rattle.nodes.specs.Comparing.{ComparedAs};

use crate::assertions::byte_at;

// The same bytes; or others, or too few, after so many were compared; or more would have to be compared than there are steps for.
#[derive(Clone, Copy, Debug, PartialEq, Eq)]
pub enum Compared {
    Same,
    Unlike(u32),
    TooMany,
}

// A letter in its other case, and every other byte itself.
fn other_case(b: u32) -> u32
    ensures { result ≡ other_case b }
{
    match b {
        // `A` to `Z`
        65..=90 => b + 32,
        // `a` to `z`
        97..=122 => b - 32,
        _ => b,
    }
}

// Whether a byte is the same as another; where it is folded, also as the other's other case.
fn same_byte(c: u32, d: u32, folded: bool) -> bool
    ensures { result ≡ same_byte folded c d }
{
    if c == d {
        return true;
    }
    if folded {
        return c == other_case(d);
    }
    false
}

// Compares the `n` bytes at `a` with those at `b`, up to the first that differ or the subject's end. It looks at no more of them than the steps that
// are left pay for.
pub fn compare(sub: &[u8], n: u32, a: u32, b: u32, left: u32, folded: bool) -> Compared
    requires { 1 ≤ left }
    ensures { ComparedAs folded sub.now n a b left result }
{
    let stop = n.min(left - 1);
    for i in 0..stop {
        let y = b as usize + i as usize;
        if sub.len() <= y {
            return Compared::Unlike(i);
        }
        let c = byte_at(sub, a as usize + i as usize);
        let d = byte_at(sub, y);
        let same = same_byte(c, d, folded);
        if !same {
            return Compared::Unlike(i + 1);
        }
    }
    let end = b as usize + stop as usize;
    if stop < n {
        if end < sub.len() {
            return Compared::TooMany;
        }
        return Compared::Unlike(stop);
    }
    if sub.len() < end {
        return Compared::Unlike(stop);
    }
    Compared::Same
}
