// The word for a line, and the row of its match.
ghost use Rattle.std.specs.Prelude.{◌≡◌, ◌*◌, ◌≤◌, Ok, length};
ghost use Rattle.syntax.specs.Limits.{row_length};
ghost use Rattle.semantics.specs.Calls.{room};
ghost use Rattle.semantics.specs.Demands.{rows_reported};
ghost use Rattle.index.specs.Rows.{rows_at};
ghost use Rattle.gathering.specs.Listing.{listing_of};
ghost use Rattle.fields_columns.specs.Columns.{names_from};
ghost use Rattle.fields_columns.specs.Promises.{Columned};
ghost use Rattle.fields_line.specs.Answers.{last_start};
ghost use Rattle.fields_line.specs.Promises.{cut_by, verdict_by, Lent, Answered};

use fields_compared::is_ambiguous;
use fields_row::Word;
use finding::{Outcome, match_held};
use frame::SUBJECT_LIMIT;
use index::ROW_LENGTH;
use listing::{Listing, list_held};

// How many rows a listing wrote.
fn rows_of(listing: Listing) -> usize
    ensures { result ≡ rows_reported (listing_of (Ok listing)) }
{
    match listing {
        Listing::Complete(rows, _steps) => rows,
        Listing::Full(rows, _steps) => rows,
        Listing::Exhausted(_start, rows, _steps) => rows,
    }
}

// The start of the last of so many rows, and a given one where there are none.
fn last_start(start: u32, rows: usize, results: &[u32]) -> u32
    requires { rows * row_length ≤ length results.now }
    ensures { result ≡ last_start start (rows_at results.now 0 rows) }
{
    if rows == 0 {
        return start;
    }
    results[(rows - 1) * ROW_LENGTH]
}

// Whether a listing was cut before it went on from a start to another.
fn is_cut(listing: Listing, start: u32, results: &[u32]) -> bool
    requires { rows_reported (listing_of (Ok listing)) * row_length ≤ length results.now }
    ensures { result ≡ cut_by (listing_of (Ok listing)) start results.now }
{
    match listing {
        Listing::Complete(_rows, _steps) => false,
        Listing::Full(rows, _steps) => last_start(start, rows, results) == start,
        Listing::Exhausted(n, _rows, _steps) => n == start,
    }
}

// The word for a match, by its row and a listing.
fn decide<'a>(
    columns: &[u8],
    count: usize,
    names: &[u8],
    line: &'a [u8],
    standing: &'a [u8],
    row: &[u32],
    listing: Listing,
    results: &[u32],
) -> Word
    requires columned { Columned columns.now count }
    requires row_len { (length row.now ≡ row_length) × (rows_reported (listing_of (Ok listing)) * row_length ≤ length results.now) }
    ensures { result ≡ verdict_by names.now line.now standing.now (names_from columns.now 0 count) row.now (listing_of (Ok listing)) results.now }
{
    let rows = rows_of(listing);
    if is_ambiguous(columns, count, names, line, standing, row, results, rows) {
        return Word::Ambiguous;
    }
    if is_cut(listing, row[0], results) {
        return Word::Undecided;
    }
    Word::Matched
}

// Asks a rule that stands compiled and has so many groups about a line. The row of the match is left, for the fields to be looked up.
pub fn ask<'a>(
    code: &[u32],
    entry: u32,
    groups: u32,
    budget: u32,
    columns: &[u8],
    count: usize,
    names: &[u8],
    line: &'a [u8],
    standing: &'a [u8],
    work: &mut [u32],
    row: &mut [u32],
    results: &mut [u32],
) -> Word
    requires lent { Lent code.now entry budget work.old }
    requires columned { Columned columns.now count }
    requires row_len { length row.old ≡ row_length }
    ensures { Answered code.now entry groups budget (room results.old) names.now (names_from columns.now 0 count) standing.now line.now result row.new }
{
    if SUBJECT_LIMIT < line.len() {
        return Word::TooLong;
    }
    let outcome = match_held(code, entry, line, budget, work, row);
    match outcome {
        Outcome::NotMatched(_steps) => Word::NotMatched,
        Outcome::Exhausted(_start, _steps) => Word::Exhausted,
        // a rule that stands is not refused
        Outcome::Refused(_f) => Word::NotMatched,
        Outcome::Matched(_steps) => {
            let listing = list_held(code, entry, groups, line, budget, work, results);
            decide(columns, count, names, line, standing, row, listing, results)
        }
    }
}
