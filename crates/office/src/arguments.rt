// What the program is started with. An argument need not be UTF-8.
ghost use Rattle.std.specs.Prelude.{◌≤◌, IfSome};
ghost use Rattle.io.specs.Counts.{IsPrefixLen};

use std::env::{Env, FillError};

// How many arguments there are, the program's name among them.
pub fn arg_count(rt: &HostRuntime) -> usize {
    let mut nothing = [0u8; 1];
    for i in 0..usize::MAX {
        if let Err(FillError::NotPresent) = rt.arg(i, &mut nothing) {
            return i;
        }
    }
    usize::MAX
}

// The length of an argument that is put at the start of a buffer; 0 where it is missing or longer than the buffer.
pub fn arg(rt: &HostRuntime, i: usize, buffer: &mut [u8]) -> usize
    ensures { IsPrefixLen result buffer.new }
{
    rt.arg(i, buffer).unwrap_or(0)
}

// The decimal number that a text is, if it is one and at most a limit.
pub fn decimal(text: &[u8], limit: u32) -> Option<u32>
    ensures { IfSome result (λ n. n ≤ limit) }
{
    if text.is_empty() {
        return None;
    }
    let mut n: u32 = 0;
    for byte in text {
        let digit = char::from(*byte).to_digit(10)?;
        n = n.checked_mul(10)?.checked_add(digit)?;
        if limit < n {
            return None;
        }
    }
    Some(n)
}

// The flag that a letter stands for.
fn flag(letter: u8) -> Option<u32> {
    match letter {
        b's' => Some(1),
        b'm' => Some(2),
        b'i' => Some(4),
        b'x' => Some(8),
        b'D' => Some(16),
        _ => None,
    }
}

// The flags that letters stand for.
fn letters(text: &[u8]) -> Option<u32> {
    let mut flags = 0;
    for letter in text {
        flags |= flag(*letter)?;
    }
    Some(flags)
}

// Flags: a number from 0 to 31, letters out of `s`, `m`, `i`, `x` and `D`, or `-` for none.
pub fn flags(text: &[u8]) -> Option<u32> {
    match text {
        b"" => None,
        b"-" => Some(0),
        _ => decimal(text, 31).or(letters(text)),
    }
}

// The flags that an argument stands for; where it is missing, none.
pub fn flags_at(rt: &HostRuntime, argument: usize) -> Option<u32> {
    let mut text = io::buffer();
    match rt.arg(argument, &mut text) {
        Ok(n) => flags(&text[..n]),
        Err(FillError::NotPresent) => Some(0),
        Err(FillError::TooLong) => None,
    }
}

// The budget that an argument stands for; where it is missing, the largest.
pub fn budget_at(rt: &HostRuntime, argument: usize, largest: u32) -> Option<u32>
    ensures { IfSome result (λ n. n ≤ largest) }
{
    let mut text = io::buffer();
    match rt.arg(argument, &mut text) {
        Ok(n) => decimal(&text[..n], largest),
        Err(FillError::NotPresent) => Some(largest),
        Err(FillError::TooLong) => None,
    }
}

// Whether an argument is this word.
pub fn is_word(rt: &HostRuntime, argument: usize, word: &[u8]) -> bool {
    let mut text = io::buffer();
    let n = arg(rt, argument, &mut text);
    &text[..n] == word
}

// Whether the arguments begin with the word that asks for a page.
pub fn asks_for_page(rt: &HostRuntime) -> bool {
    is_word(rt, 1, b"--page")
}
