// Test vectors: the whole input of a program, in its lines digits, hex bytes and words, and the pieces of what it writes.
#![tactic(auto)]

ghost use Rattle.std.specs.Prelude.{◌≡◌, ◌+◌, ◌-◌, ◌<◌, length, drop};
ghost use Rattle.io.specs.Counts.{IsPrefixLen};
ghost use Rattle.vectors.specs.Text.{digit_value, number_of, Decoded, up_to, end_by, next_word};

use std::fmt::Display;
use std::io::Read;
use syntax::Refusal;

// 262,144 zeros, for the whole input of a program.
pub fn input_buffer() -> [u8; 262144]
    ensures { 262144 ≡ length result }
{
    [0; 262144]
}

// Reads until the buffer is full, the input ends or a read fails, and answers how many bytes it put at its start.
pub fn read_full<R: Read>(input: &mut R, buffer: &mut [u8]) -> usize
    ensures { IsPrefixLen result buffer.new }
{
    let mut done = 0;
    while done < buffer.len() {
        let Ok(n) = input.read(&mut buffer[done..]) else {
            return done;
        };
        if n == 0 {
            return done;
        }
        done += n;
    }
    done
}

// What a hex digit stands for; 0 for any other byte.
pub fn digit(b: u8) -> u8
    ensures { result ≡ digit_value b }
{
    match b {
        b'0'..=b'9' => b - b'0',
        b'a'..=b'f' => b - b'a' + 10,
        _ => 0,
    }
}

// The bytes that hex digits stand for, as many as there is room for; it says how many.
pub fn decode(digits: &[u8], out: &mut [u8]) -> usize
    ensures { Decoded digits.now out.old result out.new }
{
    let mut n = 0;
    let mut rest = digits;
    while let [high, low, behind @ ..] = rest {
        if n == out.len() {
            return n;
        }
        out[n] = digit(*high) * 16 + digit(*low);
        n += 1;
        rest = behind;
    }
    n
}

// What stands before the first of a byte, and what behind it: all and nothing where there is none. So lines are cut at their ends, and words at blanks.
pub fn cut(text: &[u8], end: u8) -> (&[u8], &[u8])
    ensures before { result.0.now ≡ up_to end text.now }
    ensures behind { result.1.now ≡ drop (length (up_to end text.now) + 1) text.now }
    ensures ends { length result.0.now ≡ end_by end text.now 0 }
    ensures next { length result.1.now ≡ length text.now - next_word (end_by end text.now 0) (length text.now) }
    ensures shorter { 0 < length text.now → length result.1.now < length text.now }
{
    match text.iter().position(|b| *b == end) {
        Some(at) => (&text[..at], &text[at + 1..]),
        None => (text, &[]),
    }
}

// The decimal number that digits stand for, held at a limit. A sum of 64 bits has room for one digit more than any limit.
pub fn number(digits: &[u8], limit: u32) -> u32
    ensures { result ≡ number_of digits.now limit }
{
    let mut n: u64 = 0;
    for d in digits {
        n = n * 10 + digit(*d) as u64;
        if n > limit as u64 {
            return limit;
        }
    }
    n as u32
}

// A piece of a line, which is a write of its own. If it cannot be written it is lost, and the next piece is tried all the same.
pub fn put<D: Display + Drop>(rt: &HostRuntime, piece: D) {
    let _ = rt.print(piece);
}

// A refusal up to the end of its line: the number of its reason, 'at' and its place.
pub fn put_refusal(rt: &HostRuntime, f: Refusal) {
    put(rt, u32::from(f.reason));
    put(rt, " at ");
    put(rt, f.place);
    put(rt, "\n");
}

// The same behind 'refused'.
pub fn put_refused(rt: &HostRuntime, f: Refusal) {
    put(rt, "refused ");
    put_refusal(rt, f);
}
