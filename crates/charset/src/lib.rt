// Sets of bytes: the table of the named sets, and classes of eight 32-bit words.
#![tactic(auto)]

ghost use Rattle.std.specs.Prelude.{◌≡◌, true, false, not, ◌||◌, ℕ, ◌+◌, ◌≤◌, ◌<◌, length, drop, eqb};
ghost use Rattle.charset.specs.Named.{in_range, ◌to◌, in_named, mark_of};
ghost use Rattle.charset.specs.Cases.{folding};
ghost use Rattle.charset.specs.Class.{has};

mod tables;

use tables::{CLASSES, MARKS};

// The named sets.
#[derive(Clone, Copy, Debug, PartialEq, Eq)]
pub enum Named {
    Digit,
    Word,
    Space,
    Horizontal,
    Vertical,
    Alpha,
    Upper,
    Lower,
    Alnum,
    Xdigit,
    Blank,
    Cntrl,
    Ascii,
    Print,
    Graph,
    Punct,
}

// The bit of a set's mark.
impl From<Named> for u32 {
    ghost from_gives = { λ set bit. (bit ≡ mark_of set) × (bit < 16) };

    fn from(set: Named) -> u32 {
        match set {
            Named::Digit => 0,
            Named::Word => 1,
            Named::Space => 2,
            Named::Horizontal => 3,
            Named::Vertical => 4,
            Named::Alpha => 5,
            Named::Upper => 6,
            Named::Lower => 7,
            Named::Alnum => 8,
            Named::Xdigit => 9,
            Named::Blank => 10,
            Named::Cntrl => 11,
            Named::Ascii => 12,
            Named::Print => 13,
            Named::Graph => 14,
            Named::Punct => 15,
        }
    }
}

// Whether a named set has a byte.
pub fn in_named(set: Named, b: u8) -> bool
    ensures { result ≡ in_named set b }
{
    let k = u32::from(set);
    let marks = MARKS[b as usize];
    (marks >> k) & 1 == 1
}

// The class with no byte.
pub fn empty() -> [u32; 8]
    ensures { (x : ℕ) → x < 256 → has result x ≡ false }
{
    [0; 8]
}

// The class with one byte more.
pub fn add(class: [u32; 8], b: u8) -> [u32; 8]
    ensures { (x : ℕ) → x < 256 → has result x ≡ (eqb x b || has class x) }
{
    let mut c = class;
    let i = (b / 32) as usize;
    c[i] |= 1u32 << ((b % 32) as u32);
    c
}

// The class with the bytes from low to high too, both included.
pub fn add_range(class: [u32; 8], low: u8, high: u8) -> [u32; 8]
    ensures { (x : ℕ) → x < 256 → has result x ≡ (in_range x (low to high) || has class x) }
{
    let mut c = class;
    for b in low..=high {
        let d = add(c, b);
        c = d;
    }
    c
}

// The class with the bytes of another too.
pub fn add_class(class: [u32; 8], other: [u32; 8]) -> [u32; 8]
    ensures { (x : ℕ) → x < 256 → has result x ≡ (has other x || has class x) }
{
    let mut c = [0; 8];
    for i in 0..8 {
        c[i] = class[i] | other[i];
    }
    c
}

// The class of the bytes that are not in one.
pub fn complement(class: [u32; 8]) -> [u32; 8]
    ensures { (x : ℕ) → x < 256 → has result x ≡ not (has class x) }
{
    let mut c = [0; 8];
    for i in 0..8 {
        c[i] = !class[i];
    }
    c
}

// The letters' bits in the words of 40 to 5F and of 60 to 7F, a letter's two cases at the same place.
const LETTERS: u32 = 0x07FFFFFE;

// The class with each of its letters in the other case too.
pub fn fold(class: [u32; 8]) -> [u32; 8]
    ensures { (x : ℕ) → x < 256 → has result x ≡ folding true (has class) x }
{
    let mut c = class;
    let upper = c[2];
    let lower = c[3];
    c[2] = upper | (lower & LETTERS);
    c[3] = lower | (upper & LETTERS);
    c
}

// The class of a named set. The table is a value that is made anew at each use, so it is taken once.
pub fn class_of(set: Named) -> [u32; 8]
    ensures { (x : ℕ) → x < 256 → has result x ≡ in_named set x }
{
    let first = (u32::from(set) * 8) as usize;
    let table = CLASSES;
    let mut c = [0; 8];
    c.copy_from_slice(&table[first..first + 8]);
    c
}

// The class with the bytes of a named set too.
pub fn add_named(class: [u32; 8], set: Named) -> [u32; 8]
    ensures { (x : ℕ) → x < 256 → has result x ≡ (in_named set x || has class x) }
{
    add_class(class, class_of(set))
}

// The class with the bytes that a named set lacks too.
pub fn add_not_named(class: [u32; 8], set: Named) -> [u32; 8]
    ensures { (x : ℕ) → x < 256 → has result x ≡ (not (in_named set x) || has class x) }
{
    add_class(class, complement(class_of(set)))
}

// Whether the class in the eight words from base on has a byte.
pub fn contains(words: &[u32], base: usize, b: u8) -> bool
    requires { base + 8 ≤ length words.now }
    ensures { result ≡ has (drop base words.now) b }
{
    let word = words[base + (b >> 5) as usize];
    (word >> ((b & 31) as u32)) & 1 == 1
}
