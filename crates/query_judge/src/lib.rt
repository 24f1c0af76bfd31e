// Judges a document that was read against an accepted table: makes all ready that the rules ask of it, then judges its rows.
// The table's entries are made first, for all that looks members and arguments up. What is lent mutably is scratch. It is made at once, with room for few rows
// where there are few: less is cleared then.
#![tactic(auto)]

ghost use Rattle.std.specs.Prelude.{◌≡◌, ◌≤◌, ◌<◌, length};
ghost use Rattle.paper_table.specs.TableNumbers.{most_table};
ghost use Rattle.paper_table.specs.Types.{table_of};
ghost use Rattle.paper_table.specs.Judging.{judge};
ghost use Rattle.paper_table.specs.declared.TableAnswer.TheVariants.{Accepted};
ghost use Rattle.table_types.specs.Booked.{Booked};
ghost use Rattle.table_entries.specs.declared.TheConstants.{MOST_CELLS};
ghost use Rattle.table_entries.specs.Entries.{small_table, middle_table, cells_for, Entered};
ghost use Rattle.paper_query.specs.QueryRules.{Judged};
ghost use Rattle.query_rows.specs.Rowed.{rows_in, doc_of, Rowed, room_of};
ghost use Rattle.query_links.specs.Links.{Kinds};
ghost use Rattle.query_inside.specs.Enclosed.{Asked};
ghost use Rattle.query_due_types.specs.Dues.{Fitted};
ghost use Rattle.query_places.specs.Placed.{Placed};

use paper_query::QueryAnswer;
use query_links::{FEW_ROWS, FIRSTS, KINDS, ROWS};
use table_entries::{MIDDLE_CELLS, MIDDLE_TABLE, MOST_CELLS, SMALL_CELLS, SMALL_TABLE};

// Finds where spreads lead, flags what breaks the rules that speak of paths, and judges the rows.
fn judge_placed(
    t: &[u8],
    book: &[u32],
    s: &[u8],
    rows: &[u32],
    n: usize,
    first: &[u16],
    next: &[u16],
    firstk: &[u16],
    nextk: &[u16],
    inside: &[u16],
    at: &[u16],
    es: &[u16],
    target: &mut [u16],
    flags: &mut [u16],
) -> QueryAnswer
    requires { (length t.now ≤ most_table) × Asked t.now book.now s.now rows.now n first.now next.now × Kinds (rows_in rows.now n) firstk.now nextk.now × Placed t.now s.now rows.now n at.now es.now inside.now × (length target.old ≡ room_of n) × (length flags.old ≡ room_of n) }
    ensures { Judged (table_of t.now) (doc_of s.now rows.now n) result }
{
    query_spreads::targets(s, rows, n, firstk, nextk, target);
    query_path_flags::flags(
        t, s, rows, n, first, next, firstk, nextk, at, es, inside, target, flags,
    );
    query_first_break::judge_rows(
        t, book, s, rows, n, first, next, firstk, nextk, inside, at, es, target, flags,
    )
}

// Finds the types inside rows and the types due at places, and judges the rows.
fn judge_linked(
    t: &[u8],
    book: &[u32],
    es: &[u16],
    s: &[u8],
    rows: &[u32],
    n: usize,
    first: &[u16],
    next: &[u16],
    firstk: &[u16],
    nextk: &[u16],
    inside: &mut [u16],
    at: &mut [u16],
    target: &mut [u16],
    flags: &mut [u16],
) -> QueryAnswer
    requires { (length t.now ≤ most_table) × Fitted t.now × Asked t.now book.now s.now rows.now n first.now next.now × Entered t.now book.now es.now × Kinds (rows_in rows.now n) firstk.now nextk.now × (length inside.old ≡ room_of n) × (length at.old ≡ room_of n) × (length target.old ≡ room_of n) × (length flags.old ≡ room_of n) }
    ensures { Judged (table_of t.now) (doc_of s.now rows.now n) result }
{
    query_inside::enclose(t, book, es, s, rows, n, first, next, inside, at);
    query_places::places(t, book, es, s, rows, n, at, inside);
    judge_placed(
        t, book, s, rows, n, first, next, firstk, nextk, inside, at, es, target, flags,
    )
}

// Links and judges the rows, in lists of this length: few for few rows, so that little is cleared.
fn judge_in<const ROOM: usize>(
    t: &[u8],
    book: &[u32],
    es: &[u16],
    s: &[u8],
    rows: &[u32],
    n: usize,
) -> QueryAnswer
    requires { (length t.now ≤ most_table) × Fitted t.now × Booked t.now book.now × Entered t.now book.now es.now × Rowed s.now rows.now n × (ROOM ≡ room_of n) }
    ensures { Judged (table_of t.now) (doc_of s.now rows.now n) result }
{
    let mut first = [0u16; FIRSTS];
    let mut next = [0u16; ROOM];
    let mut firstk = [0u16; KINDS];
    let mut nextk = [0u16; ROOM];
    let mut inside = [0u16; ROOM];
    let mut at = [0u16; ROOM];
    let mut target = [0u16; ROOM];
    let mut flags = [0u16; ROOM];
    query_links::families(s, rows, n, &mut first, &mut next);
    query_links::kinds(rows, n, &mut firstk, &mut nextk);
    judge_linked(
        t,
        book,
        es,
        s,
        rows,
        n,
        &first,
        &next,
        &firstk,
        &nextk,
        &mut inside,
        &mut at,
        &mut target,
        &mut flags,
    )
}

// Judges the rows by the table's entries.
fn judge_entered(
    t: &[u8],
    book: &[u32],
    es: &[u16],
    s: &[u8],
    rows: &[u32],
    n: usize,
) -> QueryAnswer
    requires { (length t.now ≤ most_table) × Fitted t.now × Booked t.now book.now × Entered t.now book.now es.now × Rowed s.now rows.now n }
    ensures { Judged (table_of t.now) (doc_of s.now rows.now n) result }
{
    if n <= FEW_ROWS {
        return judge_in::<FEW_ROWS>(t, book, es, s, rows, n);
    }
    judge_in::<ROWS>(t, book, es, s, rows, n)
}

// Makes the table's entries in what is lent for them, and judges the rows by them.
fn judge_filled(
    t: &[u8],
    book: &[u32],
    es: &mut [u16],
    s: &[u8],
    rows: &[u32],
    n: usize,
) -> QueryAnswer
    requires { (length t.now ≤ most_table) × (judge t.now ≡ Accepted) × Booked t.now book.now × (cells_for (length t.now) ≤ length es.old) × Rowed s.now rows.now n }
    ensures { Judged (table_of t.now) (doc_of s.now rows.now n) result }
{
    table_entries::fill_entries(t, book, es);
    judge_entered(t, book, es, s, rows, n)
}

// The same with entries in a list of this length: shorter for a smaller table, so that less is cleared.
fn judge_with<const CELLS: usize>(
    t: &[u8],
    book: &[u32],
    s: &[u8],
    rows: &[u32],
    n: usize,
) -> QueryAnswer
    requires { (length t.now ≤ most_table) × (judge t.now ≡ Accepted) × Booked t.now book.now × (cells_for (length t.now) ≤ CELLS) × (CELLS ≤ MOST_CELLS) × Rowed s.now rows.now n }
    ensures { Judged (table_of t.now) (doc_of s.now rows.now n) result }
{
    let mut es = [0u16; CELLS];
    judge_filled(t, book, &mut es, s, rows, n)
}

// What is said of a document that was read, against an accepted table.
pub fn first_break(t: &[u8], book: &[u32], s: &[u8], rows: &[u32], n: usize) -> QueryAnswer
    requires { (length t.now ≤ most_table) × (judge t.now ≡ Accepted) × Booked t.now book.now × Rowed s.now rows.now n }
    ensures { Judged (table_of t.now) (doc_of s.now rows.now n) result }
{
    if t.len() <= SMALL_TABLE {
        return judge_with::<SMALL_CELLS>(t, book, s, rows, n);
    }
    if t.len() <= MIDDLE_TABLE {
        return judge_with::<MIDDLE_CELLS>(t, book, s, rows, n);
    }
    judge_with::<MOST_CELLS>(t, book, s, rows, n)
}
