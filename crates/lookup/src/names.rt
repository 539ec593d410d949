// The name index: the group that has a name.
ghost use Rattle.std.specs.Prelude.{◌≡◌};
ghost use Rattle.lookup.specs.Names.{is_of, group_named, group_at};

use check::same;
use syntax::{NAME_ENTRY, NAME_LIMIT};

// the most groups, of which each has an entry: the length of its name and room for the longest
pub const GROUPS: usize = syntax::GROUP_LIMIT as usize;

// Whether an entry is whole and has this name. The bytes behind the name are not looked at, whoever filled them.
fn is_of(name: &[u8], bytes: &[u8]) -> bool
    ensures { result ≡ is_of name.now bytes.now }
{
    if bytes.len() != NAME_ENTRY {
        return false;
    }
    let size = bytes[0] as usize;
    if size == 0 {
        return false;
    }
    if NAME_LIMIT < size {
        return false;
    }
    let end = size + 1;
    same(&bytes[1..end], name)
}

// The group of the first entry that has a name. Behind an entry that is not whole no other is.
pub fn group_named(name: &[u8], names: &[u8]) -> Option<usize>
    ensures { result ≡ group_at (group_named name.now names.now) }
{
    for passed in 0..GROUPS {
        let from = passed * NAME_ENTRY;
        let to = from + NAME_ENTRY;
        if names.len() < to {
            return None;
        }
        if is_of(name, &names[from..to]) {
            return Some(passed + 1);
        }
    }
    None
}
