// A record's members in a book, so that one is found by its name without a walk over all. Nothing is asked of the table but its sizes.
#![tactic(auto)]

ghost use Rattle.std.specs.Prelude.{◌≡◌, ◌+◌, ◌≤◌, ◌<◌, length};
ghost use Rattle.table_fields.specs.Fields.{Bounds};
ghost use Rattle.table_book.specs.Book.{part, room, book_size};
ghost use Rattle.table_members.specs.Members.{FindMember};
ghost use Rattle.table_listing.specs.Listed.{Listed, Listable, Entering, Collected};

use table_book::CELL_COUNT;
use table_fields::Field;

// Enters the member with this tag and content as number i.
fn enter(t: &[u8], book: &mut [u32], i: usize, tag: u8, start: usize, end: usize)
    requires { Bounds t.now start end × (length book.old ≡ book_size) × (i < room) }
    ensures { Entering t.now book.old book.new i tag start end }
{
    let m = table_members::member_name(t, tag, start, end);
    table_types::put_entry(book, i, tag, m.at, m.size, start, end);
}

// Enters the members of the record with this content, and says how many there are.
fn collect(t: &[u8], book: &mut [u32], from: usize, end: usize) -> usize
    requires { Listable t.now book.old from end }
    ensures { Collected t.now book.new from end result }
{
    let mut at = from;
    let mut i = 0;
    loop {
        let Some(f) = table_members::next_member(t, at, end) else {
            return i;
        };
        enter(t, book, i, f.tag, f.start, f.end);
        i += 1;
        at = f.end;
    }
}

// Makes the book of the members of the record with this content.
pub fn list_members(t: &[u8], book: &mut [u32], from: usize, end: usize)
    requires { Listable t.now book.old from end }
    ensures { Listed t.now book.new from end }
{
    let n = collect(t, book, from, end);
    book[CELL_COUNT] = n as u32;
    table_book::link(t, book);
}

const LOWEST: u32 = 0;

const HIGHEST: u32 = 255;

// The first member, of the record with the content from `from` up to `end`, whose name is the n bytes of s from `at` on; none if there is none.
pub fn find_listed(
    t: &[u8],
    book: &[u32],
    from: usize,
    end: usize,
    s: &[u8],
    at: usize,
    n: usize,
) -> Option<Field>
    requires { Listed t.now book.now from end × (at + n ≤ length s.now) }
    ensures { FindMember t.now from end (part s.now at n) result }
{
    let k = table_book::find_key(t, book, LOWEST, HIGHEST, s, at, n);
    if k < table_book::count_of(book) {
        return Some(Field {
            tag: table_book::kind_of(book, k) as u8,
            start: table_book::start_of(book, k),
            end: table_book::end_of(book, k),
        });
    }
    None
}
