// Whether another reading of a match's stretch has other fields, for the word of a line in the table of fields (`is_ambiguous`): the readings of a listing are
// compared with the match's, column by column.
#![tactic(auto)]

ghost use Rattle.std.specs.Prelude.{◌≡◌, ◌*◌, ◌≤◌, length};
ghost use Rattle.syntax.specs.Limits.{row_length};
ghost use Rattle.syntax.specs.Sets.{same_bytes};
ghost use Rattle.index.specs.Rows.{rows_at};
ghost use Rattle.fields_columns.specs.Columns.{names_from};
ghost use Rattle.fields_columns.specs.Promises.{Columned};
ghost use Rattle.fields_row.specs.Fields.{field_named};
ghost use Rattle.fields_compared.specs.Readings.{agree, is_other, is_ambiguous};

use check::same;
use fields_columns::column;
use index::ROW_LENGTH;
use lookup::field;

// Whether two readings have the same field of a name.
fn agree_on<'a>(
    name: &[u8],
    names: &[u8],
    line: &'a [u8],
    standing: &'a [u8],
    x: &[u32],
    y: &[u32],
) -> bool
    ensures { result ≡ same_bytes (field_named names.now line.now standing.now 0 x.now name.now) (field_named names.now line.now standing.now 0 y.now name.now) }
{
    let one = field(name, names, line, 0, x, standing);
    let other = field(name, names, line, 0, y, standing);
    same(one, other)
}

// Whether they have the same fields.
fn agree_all<'a>(
    columns: &[u8],
    count: usize,
    names: &[u8],
    line: &'a [u8],
    standing: &'a [u8],
    x: &[u32],
    y: &[u32],
) -> bool
    requires { Columned columns.now count }
    ensures { result ≡ agree names.now line.now standing.now x.now y.now (names_from columns.now 0 count) }
{
    for i in 0..count {
        if !agree_on(column(columns, i), names, line, standing, x, y) {
            return false;
        }
    }
    true
}

// Whether a reading, y, is of the same stretch as another, x, and has other fields.
fn is_other<'a>(
    columns: &[u8],
    count: usize,
    names: &[u8],
    line: &'a [u8],
    standing: &'a [u8],
    x: &[u32],
    y: &[u32],
) -> bool
    requires columned { Columned columns.now count }
    requires x_len { (length x.now ≡ row_length) × (length y.now ≡ row_length) }
    ensures { result ≡ is_other names.now line.now standing.now (names_from columns.now 0 count) x.now y.now }
{
    if y[0] != x[0] {
        return false;
    }
    if y[1] != x[1] {
        return false;
    }
    !agree_all(columns, count, names, line, standing, x, y)
}

// Whether one of so many readings, which stand one behind another, is such a one.
pub fn is_ambiguous<'a>(
    columns: &[u8],
    count: usize,
    names: &[u8],
    line: &'a [u8],
    standing: &'a [u8],
    x: &[u32],
    results: &[u32],
    rows: usize,
) -> bool
    requires columned { Columned columns.now count }
    requires x_len { (length x.now ≡ row_length) × (rows * row_length ≤ length results.now) }
    ensures { result ≡ is_ambiguous names.now line.now standing.now (names_from columns.now 0 count) x.now (rows_at results.now 0 rows) }
{
    for i in 0..rows {
        let from = i * ROW_LENGTH;
        let to = from + ROW_LENGTH;
        if is_other(columns, count, names, line, standing, x, &results[from..to]) {
            return true;
        }
    }
    false
}
