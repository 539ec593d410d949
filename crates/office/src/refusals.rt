// Why a rule or a card is refused, as the one who started the program is told.
ghost use Rattle.std.specs.Prelude.{◌≤◌, ◌<◌, length};

use crate::messages::say;
use syntax::{Reason, Refusal};

// The lowest number of a refusal that has a place in the rule.
const FIRST_IN_RULE: u32 = 10;

// Whether a reason is one of a card, which has no place.
fn is_of_card(reason: Reason) -> bool {
    matches!(
        reason,
        Reason::UnknownKind
            | Reason::CardCutShort
            | Reason::WrongRecords
            | Reason::StrayBytes
            | Reason::WrongGroupNumber
    )
}

// The window of the rule that begins at a position, with the place marked if it lies there.
fn say_window(rt: &HostRuntime, rule: &[u8], at: usize, place: usize)
    requires { (at ≤ length rule.now) × (length rule.now ≤ 1001) × (place < length rule.now) }
{
    let mut text = [0u8; report::WIDTH];
    let n = report::show(&rule[at..], &mut text);
    say(rt, b"  ");
    say(rt, &text[..n]);
    say(rt, b"\n");
    if report::touches(place as u32, place as u32 + 1, at as u32) {
        report::mark(b'^', place as u32, place as u32 + 1, at as u32, &mut text);
        say(rt, b"  ");
        say(rt, &text[..n]);
        say(rt, b"\n");
    }
}

// The rule with the place marked.
fn say_rule(rt: &HostRuntime, rule: &[u8], place: usize)
    requires { (length rule.now ≤ 1001) × (place < length rule.now) }
{
    for at in (0..rule.len()).step_by(report::WIDTH) {
        say_window(rt, rule, at, place);
    }
}

// Why the rule is refused: the number, the place and what it means, and the rule with the place marked if it is one in the rule. Or why a card
// is.
pub fn say_refusal(rt: &HostRuntime, program: &[u8], f: Refusal, rule: &[u8])
    requires { length rule.now ≤ 1001 }
{
    let number = u32::from(f.reason);
    let meaning = f.reason;
    say(rt, program);
    if is_of_card(f.reason) {
        let _ = eprintln!(rt; ": the card is refused, {number}: {meaning}");
        return;
    }
    let _ = eprintln!(rt; ": the rule is refused, {f}: {meaning}");
    if FIRST_IN_RULE <= number && f.place < rule.len() {
        say_rule(rt, rule, f.place);
    }
}
