// The name index: an entry for each group that a rule can have, the length of its name and the name, padded with 00. It is filled from the table of names that
// the reading of a rule leaves: an entry for each group of the rule, byte by byte, and behind the last of them zeros, which the compiler sets in one piece. Every
// byte is written, so that nothing which stood there before is left.
#![tactic(auto)]

ghost use Rattle.std.specs.Prelude.{◌≡◌, ◌++◌, suc, ◌+◌, ◌*◌, ◌≤◌, ◌<◌, length, take, drop, get_or};
ghost use Rattle.std.proofs.Math.Seq.{slice};
ghost use Rattle.syntax.specs.Limits.{group_limit, name_limit, name_entry, name_index_need};
ghost use Rattle.syntax.specs.Laws.Names.{Short};
ghost use Rattle.semantics.specs.Calls.{over};
ghost use Rattle.semantics.specs.NameIndex.{name_of, entry, name_index};
ghost use Rattle.name_table.specs.Table.{names_in, NamesFit};

use syntax::{NAME_ENTRY, NAME_INDEX_NEED};

// what stands behind a name up to the end of its entry
const PADDING: u8 = 0;

// A byte of an entry: the length of the name, then the name, then 00. The name is so many bytes of the rule.
fn entry_byte(rule: &[u8], from: usize, len: usize, i: usize) -> u8
    requires { (len ≤ name_limit) × (1 ≤ len → from + len ≤ length rule.now) × (i < name_entry) }
    ensures { result ≡ get_or (entry (slice from (from + len) rule.now)) i 0 }
{
    if i == 0 {
        return len as u8;
    }
    let k = i - 1;
    if k < len {
        return rule[from + k];
    }
    PADDING
}

// Writes an entry.
fn write_entry(rule: &[u8], from: usize, len: usize, names: &mut [u8], base: usize)
    requires { (len ≤ name_limit) × (1 ≤ len → from + len ≤ length rule.now) × (base + name_entry ≤ length names.old) }
    ensures { names.new ≡ take base names.old ++ (entry (slice from (from + len) rule.now) ++ drop (base + name_entry) names.old) }
{
    for i in 0..NAME_ENTRY {
        names[base + i] = entry_byte(rule, from, len, i);
    }
}

// Writes the entry of the group of a rule that g others come before.
fn write_group(rule: &[u8], table: &[u32], groups: usize, g: usize, names: &mut [u8])
    requires { NamesFit rule.now table.now groups × Short (names_in rule.now table.now groups) × (g < groups) × (groups ≤ group_limit) × (name_index_need ≤ length names.old) }
    ensures { names.new ≡ take (g * name_entry) names.old ++ (entry (name_of (names_in rule.now table.now groups) (suc g)) ++ drop (g * name_entry + name_entry) names.old) }
{
    let base = g * NAME_ENTRY;
    let from = table[2 * g] as usize;
    let len = table[2 * g + 1] as usize;
    write_entry(rule, from, len, names, base);
}

// Fills the index with the names that the table has for so many groups; the bytes behind it stay.
pub fn fill(rule: &[u8], table: &[u32], groups: u32, names: &mut [u8])
    requires { NamesFit rule.now table.now groups × Short (names_in rule.now table.now groups) × (groups ≤ group_limit) × (name_index_need ≤ length names.old) }
    ensures { names.new ≡ over (name_index (names_in rule.now table.now groups)) names.old }
{
    let many = groups as usize;
    for g in 0..many {
        write_group(rule, table, many, g, names);
    }
    let end = many * NAME_ENTRY;
    names[end..NAME_INDEX_NEED].fill(PADDING);
}
