// The byte at a position, and the number whose digits stand there.
ghost use Rattle.std.specs.Prelude.{◌≡◌, ◌+◌, ◌*◌, ◌≤◌, ◌<◌, length};
ghost use Rattle.lexemes.specs.Says.{Peeked, IsDigitAt, capped, Counts};

use syntax::Parsed;

// The byte at a position, and 256 past the end, as the definition `byte` has it. An Option is no plainer: each test would compare with `Some(b'{')`, and
// each promise would turn it back into that number.
pub fn peek(rule: &[u8], at: usize) -> u32
    ensures { Peeked rule.now at result }
{
    if at < rule.len() {
        rule[at] as u32
    } else {
        256
    }
}

// What the byte at a position stands for as a digit of a base up to 16, if it is one.
pub fn digit_at(rule: &[u8], base: u32, at: usize) -> Option<u32>
    requires { (2 ≤ base) × (base ≤ 16) }
    ensures { IsDigitAt base rule.now at result }
{
    let b = rule.get(at)?;
    char::from(*b).to_digit(base)
}

// One more digit behind a number.
fn more(v: u32, base: u32, d: u32) -> u32
    requires { (v ≤ 1000) × (base ≤ 16) × (d < 16) }
    ensures { result ≡ capped (v * base + d) }
{
    (v * base + d).min(1000)
}

// The number whose digits in a base stand at a position, as far as they go: what it stands for, at most 1000, and the position behind it.
pub fn number_at(rule: &[u8], base: u32, from: usize) -> Parsed<u32>
    requires { (2 ≤ base) × (base ≤ 16) × (from ≤ length rule.now) }
    ensures { Counts base rule.now from result }
{
    let mut value = 0;
    for next in from..rule.len() {
        let Some(d) = digit_at(rule, base, next) else {
            return Parsed { value, next };
        };
        value = more(value, base, d);
    }
    Parsed {
        value,
        next: rule.len(),
    }
}
