// Which type conditions apply to an object type, found once before a walk: a byte for each of the table's records.
#![tactic(auto)]

ghost use Rattle.std.specs.Prelude.{◌≡◌, ◌&&◌, ◌≤◌, ◌<◌, length, get_or, ltb};
ghost use Rattle.paper_table.specs.Types.{table_of};
ghost use Rattle.table_book.specs.Book.{room, count_in};
ghost use Rattle.table_types.specs.Booked.{Booked};
ghost use Rattle.paper_plan.specs.Applies.{applies};
ghost use Rattle.plan_walk_types.specs.Fits.{bit, fit, FitsTo, Fits};

use table_book::ROOM;

// Does the type condition that is record k apply to the object of record o?
pub fn does_apply(t: &[u8], book: &[u32], k: usize, o: usize) -> bool
    requires { Booked t.now book.now × (k < count_in book.now) × (o < count_in book.now) }
    ensures { result ≡ applies (table_of t.now) k o }
{
    if k == o {
        return true;
    }
    table_types::can_be(
        t,
        book,
        t,
        table_book::name_of(book, k),
        table_book::size_of(book, k),
        table_book::name_of(book, o),
        table_book::size_of(book, o),
    )
}

// A byte for it; 0 where there is no record k.
fn fit_of(t: &[u8], book: &[u32], k: usize, o: usize) -> u8
    requires { Booked t.now book.now × (o < count_in book.now) }
    ensures { result ≡ fit (table_of t.now) o k }
{
    if k < table_book::count_of(book) {
        if does_apply(t, book, k, o) {
            return 1;
        }
    }
    0
}

// The bytes of the object of record o.
pub fn fill_fits(t: &[u8], book: &[u32], o: usize, fits: &mut [u8])
    requires { Booked t.now book.now × (o < count_in book.now) × (length fits.old ≡ room) }
    ensures { Fits (table_of t.now) o fits.new }
{
    for k in 0..ROOM {
        fits[k] = fit_of(t, book, k, o);
    }
}
