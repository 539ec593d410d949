// What stays the same for all lines of a file.
ghost use Rattle.std.specs.Prelude.{◌≤◌, length};
ghost use Rattle.syntax.specs.Limits.{group_limit};

use frame::NAME_INDEX_NEED;
use index::ROW_LENGTH;

// What is lent to the calls: 16 numbers for each step of the largest budget, and 1,000 rows. The programs have them as arrays: with a `Vec` they could find
// no memory, and would say so, where what they say may not change.
pub const RULE_AREA: usize = frame::RULE_AREA_NEED;

pub const WORK_AREA: usize = frame::WORK_PER_STEP * frame::BUDGET_LIMIT as usize;

pub const RESULT_AREA: usize = 1000 * ROW_LENGTH;

// A line that fills this is too long: the longest that can be listed has one byte less.
pub const LINE: usize = frame::SUBJECT_LIMIT + 1;

// A rule and the area in which it stands compiled, its names, where it is entered, how many groups it has, its flags and the budget.
#[derive(Clone, Copy)]
pub struct Job<'a> {
    pub rule: &'a [u8],
    pub area: &'a [u32; RULE_AREA],
    pub names: &'a [u8; NAME_INDEX_NEED],
    pub entry: u32,
    pub groups: u32,
    pub flags: u32,
    pub budget: u32,
    ghost rule_fits: { length rule.now ≤ 1001 },
}

// The columns of a table, in the layout of a name index, how many there are, and what stands for a group that took nothing.
#[derive(Clone, Copy)]
pub struct Table<'a> {
    pub columns: &'a [u8; NAME_INDEX_NEED],
    pub count: usize,
    pub standing: &'a [u8],
    ghost few: { count ≤ group_limit },
}
