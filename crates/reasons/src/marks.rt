// Marked items: the signs under their texts, and those of them that have a text of their own.
ghost use Rattle.std.specs.Prelude.{◌≡◌, ℕ, ◌≤◌, ◌<◌, length, get_or};
ghost use Rattle.reasons.specs.Items.{item_text};
ghost use Rattle.reasons.specs.Marks.{Decides, end_after, sign_before, sign_under, Says, Said, New, NextNew};

use crate::items::item_end;
use check::same;

// The mark of an item that failed.
const MARK: u8 = 1;

// Where the text of the last marked item ends, once the item at a place has been looked at.
fn end_after(rule: &[u8], flags: u32, mark: u8, at: usize, end: usize) -> usize
    requires { at < length rule.now }
    ensures { result ≡ end_after rule.now flags mark at end }
{
    if mark == MARK {
        return item_end(rule, flags, at);
    }
    end
}

// What stands under a byte of the rule, where the text of the last marked item has this end.
fn sign(at: usize, end: usize) -> u8
    ensures { result ≡ sign_before at end }
{
    if at < end { b'^' } else { b' ' }
}

// Puts `^` under the whole text of each marked item, and blanks elsewhere. No item begins within another's text: so the end of the last one is enough.
pub fn underline(rule: &[u8], flags: u32, marks: &[u8], out: &mut [u8])
    requires { (length marks.now ≡ length rule.now) × (length out.old ≡ length rule.now) }
    ensures { (i : ℕ) → i < length rule.now → get_or out.new i 0 ≡ sign_under rule.now flags marks.now i }
{
    let mut end: usize = 0;
    for i in 0..rule.len() {
        end = end_after(rule, flags, marks[i], i, end);
        out[i] = sign(i, end);
    }
}

// Whether the items at two places have the same text.
fn is_alike(rule: &[u8], flags: u32, a: usize, b: usize) -> bool
    requires { (a < length rule.now) × (b < length rule.now) }
    ensures { Decides result (item_text rule.now flags a ≡ item_text rule.now flags b) }
{
    let x = item_end(rule, flags, a);
    let y = item_end(rule, flags, b);
    same(&rule[a..x], &rule[b..y])
}

// Whether the item at a place is marked, and has the text of another one.
fn says(rule: &[u8], flags: u32, marks: &[u8], at: usize, other: usize) -> bool
    requires { (length marks.now ≡ length rule.now) × (at < length rule.now) × (other < length rule.now) }
    ensures { Decides result (Says rule.now flags marks.now (item_text rule.now flags other) at) }
{
    if marks[at] != MARK {
        return false;
    }
    is_alike(rule, flags, at, other)
}

// Whether an item that is marked before a place has the text of the one there.
fn is_said(rule: &[u8], flags: u32, marks: &[u8], at: usize) -> bool
    requires { (length marks.now ≡ length rule.now) × (at < length rule.now) }
    ensures { Decides result (Said rule.now flags marks.now (item_text rule.now flags at) at) }
{
    for i in 0..at {
        if says(rule, flags, marks, i, at) {
            return true;
        }
    }
    false
}

// Whether an item is marked at a place, with a text that none has that is marked before it.
fn is_new(rule: &[u8], flags: u32, marks: &[u8], at: usize) -> bool
    requires { (length marks.now ≡ length rule.now) × (at < length rule.now) }
    ensures { Decides result (New rule.now flags marks.now at) }
{
    if marks[at] != MARK {
        return false;
    }
    !is_said(rule, flags, marks, at)
}

// The place of the first such item from a place on, and the rule's length where there is none.
pub fn next_new(rule: &[u8], flags: u32, marks: &[u8], from: usize) -> usize
    requires { (length marks.now ≡ length rule.now) × (from ≤ length rule.now) }
    ensures { NextNew rule.now flags marks.now from result }
{
    for i in from..rule.len() {
        if is_new(rule, flags, marks, i) {
            return i;
        }
    }
    rule.len()
}
