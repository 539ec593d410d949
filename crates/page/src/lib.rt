// The page that `readings` and `fields` write: its fixed markup, and a line with its readings, or with the reason why it has none.
//
// The page is one file. It has no script, and its first lines forbid the browser to run one or to fetch anything. All that is shown of a line, of a rule or of
// a name goes through `put_shown`, and so through the proved `page_text`; every other byte is a text of this crate or a decimal number.
//
// A part of a line has the colour of the field that took it: of fields within one another that of the inner one. A field's colour is never the only sign of
// it, since its name and what it took stand under the line. Of a long line the page shows 2,000 bytes, and says how many more there are.
#![tactic(auto)]

mod attempt;
mod colours;
mod fields;
mod markup;
mod names;
mod reading;
mod shown;

pub use attempt::{put_attempt, put_marked};
pub use fields::put_legend;
pub use markup::{
    put_card, put_card_end, put_counts, put_head, put_more, put_note, put_rule, put_spent, put_tail,
};
pub use names::put_columns;
pub use reading::{put_plain, put_readings};
pub use shown::{put_paragraph, put_shown};
