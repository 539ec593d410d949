// How many lines a buffer has, in one pass: one, and one more for each 0A before the last byte. Whether the last byte is an 0A or not, it ends a line:
// behind an 0A at the end stands an empty piece, which does not count.
//
// The 0A are counted by blocks, those of a block in a number of eight bits: the compiler then looks at sixteen bytes at a time, where a number of 64 bits
// lets it look at two.
#![tactic(auto)]

ghost use Rattle.std.specs.Prelude.{◌≡◌, ◌^◌, ◌≤◌, ◌<◌, ◌+◌, length, take, drop};
ghost use Rattle.semantics.specs.Assertions.{is_newline};
ghost use Rattle.semantics.specs.Batches.{lines_of};
ghost use Rattle.semantics.specs.BatchDemands.{one_more_if, newlines};

use text::NEWLINE;

// the bytes of a block
const BLOCK: usize = 128;

// One more if the byte is an 0A.
fn count_newline(byte: u8, count: u8) -> u8
    requires { count + 1 < 2 ^ 8 }
    ensures { result ≡ one_more_if (is_newline byte) count }
{
    if byte == NEWLINE {
        return count + 1;
    }
    count
}

// The 0A of a block.
fn count_block(buffer: &[u8], from: usize, size: usize) -> u8
    requires { (from + size ≤ length buffer.now) × (size < 2 ^ 8) }
    ensures { (result ≤ size) × (result ≡ newlines (take size (drop from buffer.now))) }
{
    let mut count: u8 = 0;
    for i in 0..size {
        count = count_newline(buffer[from + i], count);
    }
    count
}

// The number of lines. Before each block, one more than the 0A so far are counted.
pub fn count_lines(buffer: &[u8]) -> usize
    ensures { result ≡ length (lines_of buffer.now) }
{
    if buffer.len() == 0 {
        return 0;
    }
    let last = buffer.len() - 1;
    let mut lines: usize = 1;
    let mut i: usize = 0;
    while i < last {
        let size = BLOCK.min(last - i);
        lines += count_block(buffer, i, size) as usize;
        i += size;
    }
    lines
}
