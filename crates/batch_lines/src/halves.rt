// A number of 64 bits as two of 32.
ghost use Rattle.std.specs.Prelude.{◌≡◌};
ghost use Rattle.semantics.specs.Batches.{low, high};

// 2^32
const WORD: u64 = 4294967296;

// What a number of 32 bits keeps of a larger one.
pub fn low_half(n: u64) -> u32
    ensures { result ≡ low n }
{
    (n % WORD) as u32
}

// The rest of it.
pub fn high_half(n: u64) -> u32
    ensures { result ≡ high n }
{
    (n / WORD) as u32
}
