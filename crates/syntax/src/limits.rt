// The quantities of a rule that the code of several crates counts with. The number of groups and the length of a name stand here alone, and all that
// is counted in them is made from them: `group_limit` and `name_limit` tie the two to those of the definitions.
ghost use Rattle.std.specs.Prelude.{◌≡◌};
ghost use Rattle.syntax.specs.Limits.{group_limit, name_limit};

// the most capturing groups that a rule can have
pub const GROUP_LIMIT: u32 = 64;

// two numbers for each of them, and with a start and an end before them a row
pub const SPANS_LENGTH: usize = 2 * GROUP_LIMIT as usize;

pub const ROW_LENGTH: usize = 2 + SPANS_LENGTH;

// the most bytes that a name can have
pub const NAME_LIMIT: usize = 16;

// the bytes of a group's entry in the name index, and of the index
pub const NAME_ENTRY: usize = NAME_LIMIT + 1;

pub const NAME_INDEX_NEED: usize = GROUP_LIMIT as usize * NAME_ENTRY;

// how deep groups may nest, and the machine's registers: the captures, and two for each part that keeps something, of which there are three in each level
// of groups
pub const NESTING_LIMIT: u32 = 24;

pub const REGISTERS: usize = SPANS_LENGTH + 2 * 3 * (NESTING_LIMIT as usize + 1);

// How many groups a rule can have.
pub fn group_limit() -> u32
    ensures { result ≡ group_limit }
{
    GROUP_LIMIT
}

// How many bytes a name can have.
pub fn name_limit() -> usize
    ensures { result ≡ name_limit }
{
    NAME_LIMIT
}
