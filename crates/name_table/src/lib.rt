// The table of names that the reading of a rule leaves, and the group that has a name.
//
// The first pass looks there for a name that is used twice, and the second for the group of a reference by name.
#![tactic(auto)]

ghost use Rattle.std.specs.Prelude.{◌≡◌, IfSome, ◌+◌, ◌*◌, ◌≤◌, ◌<◌, get_or, length, unwrap_or};
ghost use Rattle.std.proofs.Math.Seq.{slice};
ghost use Rattle.syntax.specs.Names.{group_called};
ghost use Rattle.syntax.specs.Sets.{same_bytes};
ghost use Rattle.name_table.specs.Table.{names_in, NamesFit};

// The number at a position, of the table or of the rule area.
pub fn word(area: &[u32], at: usize) -> usize
    requires { at < length area.now }
    ensures { (result ≡ get_or area.now at 0) × (result < 4294967296) }
{
    area[at] as usize
}

// The name of the group behind so many others. A group without a name has none, wherever its position is.
fn name_behind<'a>(rule: &'a [u8], table: &[u32], others: usize) -> &'a [u8]
    requires { (2 * others + 2 ≤ length table.now) × (1 ≤ get_or table.now (2 * others + 1) 0 → get_or table.now (2 * others) 0 + get_or table.now (2 * others + 1) 0 ≤ length rule.now) }
    ensures { result.now ≡ slice (get_or table.now (2 * others) 0) (get_or table.now (2 * others) 0 + get_or table.now (2 * others + 1) 0) rule.now }
{
    let from = word(table, 2 * others);
    let len = word(table, 2 * others + 1);
    if len == 0 {
        return &[];
    }
    &rule[from..from + len]
}

// The number of the group that has the name at a position of the rule, if one has. No two groups have one name, so that the order does
// not matter; the last is looked at first because the grammar lists the names so.
pub fn group_called(
    rule: &[u8],
    table: &[u32],
    groups: usize,
    from: usize,
    len: usize,
) -> Option<usize>
    requires { NamesFit rule.now table.now groups × (from + len ≤ length rule.now) }
    ensures { (unwrap_or result 0 ≡ group_called (slice from (from + len) rule.now) (names_in rule.now table.now groups)) × IfSome result (λ g. (1 ≤ g) × (g ≤ groups)) }
{
    let name = &rule[from..from + len];
    for others in (0..groups).rev() {
        if name == name_behind(rule, table, others) {
            return Some(others + 1);
        }
    }
    None
}
