// The bytes of a card that is written, each by its position.
ghost use Rattle.std.specs.Prelude.{◌≡◌, [], ◌∷◌, suc, ◌+◌, ◌*◌, ◌/◌, ◌%◌, ◌≤◌, ◌<◌, length, get_or};
ghost use Rattle.semantics.specs.Calls.{over};
ghost use Rattle.card_format.specs.Cards.{settings_kind, settings_body, length_kind, length_body, written, card_need};
ghost use Rattle.card_format.specs.CardDemands.{card_of};
ghost use Rattle.card_format.specs.Places.{piece_byte};
ghost use Rattle.card_records.specs.Room.{Writable};

use card_format::{
    LENGTH, LENGTH_KIND, PIECE, PIECE_BODY, PIECE_KIND, SETTINGS, SETTINGS_KIND, high_byte,
    low_byte, text_end,
};

// what the last body of the rule is filled up with
const PADDING: u8 = 0;

// A byte of the first record.
fn settings_byte(flags: u32, budget: u32, groups: u32, i: usize) -> u8
    requires { (flags < 256) × (budget < 65536) × (groups < 256) × (i < suc settings_body) }
    ensures { result ≡ get_or (settings_kind ∷ flags ∷ budget % 256 ∷ budget / 256 ∷ groups ∷ []) i 0 }
{
    match i {
        0 => SETTINGS_KIND,
        1 => flags as u8,
        2 => low_byte(budget),
        3 => high_byte(budget),
        _ => groups as u8,
    }
}

// A byte of the last record.
fn length_byte(size: u32, i: usize) -> u8
    requires { (size < 65536) × (i < suc length_body) }
    ensures { result ≡ get_or (length_kind ∷ size % 256 ∷ size / 256 ∷ []) i 0 }
{
    match i {
        0 => LENGTH_KIND,
        1 => low_byte(size),
        _ => high_byte(size),
    }
}

// A byte of the records between them, by its position behind the first: a kind, a byte of the rule, or what pads the last.
fn piece_byte(rule: &[u8], i: usize) -> u8
    requires { i < 65536 }
    ensures { result ≡ piece_byte rule.now i }
{
    let within = i % PIECE;
    if within == 0 {
        return PIECE_KIND;
    }
    let at = i / PIECE * PIECE_BODY + within - 1;
    if at < rule.len() {
        return rule[at];
    }
    PADDING
}

// A byte of a card.
fn card_byte(rule: &[u8], flags: u32, budget: u32, groups: u32, i: usize) -> u8
    requires { Writable rule.now flags budget groups × (i < length (written (card_of rule.now flags budget groups))) }
    ensures { result ≡ get_or (written (card_of rule.now flags budget groups)) i 0 }
{
    if i < SETTINGS {
        return settings_byte(flags, budget, groups, i);
    }
    let end = text_end(rule.len());
    if i < end {
        return piece_byte(rule, i - SETTINGS);
    }
    length_byte(rule.len() as u32, i - end)
}

// Writes a card at the front of an area, and returns its length.
pub fn put_card(rule: &[u8], flags: u32, budget: u32, groups: u32, area: &mut [u8]) -> usize
    requires { Writable rule.now flags budget groups × (card_need ≤ length area.old) }
    ensures { (result ≡ length (written (card_of rule.now flags budget groups))) × (area.new ≡ over (written (card_of rule.now flags budget groups)) area.old) }
{
    let total = text_end(rule.len()) + LENGTH;
    for i in 0..total {
        area[i] = card_byte(rule, flags, budget, groups, i);
    }
    total
}
