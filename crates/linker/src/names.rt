// The names that a rule's references are looked up in.
ghost use Rattle.std.specs.Prelude.{◌≡◌, IfSome, ◌+◌, ◌≤◌, length, unwrap_or};
ghost use Rattle.std.proofs.Math.Seq.{slice};
ghost use Rattle.name_table.specs.Table.{names_in, NamesFit};

use name_table::group_called;

// A rule, and the table of the names of its groups: for each, where it begins in the rule and how many bytes it has.
#[derive(Clone, Copy)]
pub struct NameTable<'a> {
    pub rule: &'a [u8],
    pub table: &'a [u32],
    pub groups: usize,
    ghost fit: { NamesFit rule.now table.now groups },
}

impl NameTable<'_> {
    ghost use Rattle.syntax.specs.Names.{group_called};

    // The number of the group that has the name at a position of the rule, if one has.
    pub fn called(&self, from: usize, len: usize) -> Option<usize>
        requires { from + len ≤ length self.now.rule.now }
        ensures { (unwrap_or result 0 ≡ group_called (slice from (from + len) self.now.rule.now) (names_in self.now.rule.now self.now.table.now self.now.groups)) × IfSome result (λ g. (1 ≤ g) × (g ≤ self.now.groups)) }
    {
        group_called(self.rule, self.table, self.groups, from, len)
    }
}
