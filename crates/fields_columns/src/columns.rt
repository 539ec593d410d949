// The columns of the table: their names, which stand in the layout of a name index.
ghost use Rattle.std.specs.Prelude.{◌≡◌, [], ◌∷◌, ◌++◌, ◌+◌, ◌≤◌, ◌<◌, length};
ghost use Rattle.syntax.specs.Limits.{group_limit, name_limit, name_index_need};
ghost use Rattle.fields_columns.specs.Columns.{name_at, names_from, named};

use syntax::{NAME_ENTRY, NAME_LIMIT};
use text::{append, append_byte};

// The most columns: as many as a rule can have names.
pub const COLUMN_LIMIT: usize = syntax::GROUP_LIMIT as usize;

// The name of a column.
pub fn column(columns: &[u8], i: usize) -> &[u8]
    requires { (i < group_limit) × (name_index_need ≤ length columns.now) }
    ensures { result.now ≡ name_at columns.now i }
{
    let from = i * NAME_ENTRY;
    let size = (columns[from] as usize).min(NAME_LIMIT);
    let first = from + 1;
    let end = first + size;
    &columns[first..end]
}

// Puts a name behind those of so many columns, and says how many there are then.
pub fn add_column(name: &[u8], columns: &mut [u8], count: usize) -> usize
    requires { (length name.now ≤ name_limit) × (count < group_limit) × (name_index_need ≤ length columns.old) }
    ensures { (result ≡ count + 1) × (names_from columns.new 0 result ≡ names_from columns.old 0 count ++ (name.now ∷ [])) }
{
    let from = count * NAME_ENTRY;
    let first = append_byte(columns, from, name.len() as u8);
    append(columns, first, name);
    count + 1
}

// Puts a name, if it is one.
fn add_named(name: &[u8], columns: &mut [u8], count: usize) -> usize
    requires { (length name.now ≤ name_limit) × (count < group_limit) × (name_index_need ≤ length columns.old) }
    ensures { (result ≤ count + 1) × (names_from columns.new 0 result ≡ names_from columns.old 0 count ++ named (name.now ∷ [])) }
{
    if name.len() == 0 {
        return count;
    }
    add_column(name, columns, count)
}

// All names of a name index become columns, and how many these are.
pub fn all_columns(names: &[u8], columns: &mut [u8]) -> usize
    requires { (name_index_need ≤ length names.now) × (name_index_need ≤ length columns.old) }
    ensures { (result ≤ group_limit) × (names_from columns.new 0 result ≡ named (names_from names.now 0 group_limit)) }
{
    let mut count: usize = 0;
    for i in 0..COLUMN_LIMIT {
        count = add_named(column(names, i), columns, count);
    }
    count
}
