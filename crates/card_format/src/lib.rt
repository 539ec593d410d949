// What a rule card is, as definitions (specs/), with the demands on the calls that write and read cards and what is proved of both; and of the code what
// has only to do with the format: the kinds of records, the lengths of their bodies, and numbers of two bytes.
#![tactic(auto)]

ghost use Rattle.std.specs.Prelude.{◌≡◌, ◌+◌, ◌*◌, ◌/◌, ◌%◌, ◌<◌, length, get_or};
ghost use Rattle.card_format.specs.Cards.{pieces_for, body_length};
ghost use Rattle.card_format.specs.Places.{text_end};

// flags, budget and number of groups
pub const SETTINGS_KIND: u8 = 1;

const SETTINGS_BODY: usize = 4;

// rule bytes
pub const PIECE_KIND: u8 = 2;

pub const PIECE_BODY: usize = 32;

// rule length
pub const LENGTH_KIND: u8 = 3;

const LENGTH_BODY: usize = 2;

// with the byte of its kind
pub const SETTINGS: usize = SETTINGS_BODY + 1;

pub const PIECE: usize = PIECE_BODY + 1;

pub const LENGTH: usize = LENGTH_BODY + 1;

// The length of the body of a kind, and 0 for a byte that is no kind.
pub fn body_length(kind: u8) -> usize
    ensures { result ≡ body_length kind }
{
    match kind {
        SETTINGS_KIND => SETTINGS_BODY,
        PIECE_KIND => PIECE_BODY,
        LENGTH_KIND => LENGTH_BODY,
        _ => 0,
    }
}

// The records of kind 2 that so many bytes of a rule need.
pub fn pieces_for(size: usize) -> usize
    requires { size < 65536 }
    ensures { result ≡ pieces_for size }
{
    (size + PIECE_BODY - 1) / PIECE_BODY
}

// Where they end in a card.
pub fn text_end(size: usize) -> usize
    requires { size < 65536 }
    ensures { result ≡ text_end size }
{
    SETTINGS + pieces_for(size) * PIECE
}

// The low byte of a number.
pub fn low_byte(n: u32) -> u8
    ensures { result ≡ n % 256 }
{
    (n % 256) as u8
}

// And the high one, of a number that has two.
pub fn high_byte(n: u32) -> u8
    requires { n < 65536 }
    ensures { result ≡ n / 256 }
{
    (n / 256) as u8
}

// The number of two bytes, the low one first.
pub fn two_bytes(card: &[u8], at: usize) -> u32
    requires { at + 1 < length card.now }
    ensures { (result ≡ get_or card.now at 0 + 256 * get_or card.now (at + 1) 0) × (result < 65536) }
{
    let low = card[at] as u32;
    let high = card[at + 1] as u32;
    low + 256 * high
}
