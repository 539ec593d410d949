// The columns of the table of fields: their names, which stand in a lent area in the layout of a name index, and the head that is written of them.
#![tactic(auto)]

mod columns;
mod heading;

pub use columns::{COLUMN_LIMIT, add_column, all_columns, column};
pub use heading::write_head;
