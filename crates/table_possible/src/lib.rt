// Which objects an interface or union can be, found once for a table: a bit for each pair of definitions.
// Nothing is asked of the table but its book.
#![tactic(auto)]

ghost use Rattle.std.specs.Prelude.{◌≡◌, true, ◌+◌, ◌≤◌, ◌<◌, length, eqb};
ghost use Rattle.paper_table.specs.TableNumbers.{tag_object, tag_union};
ghost use Rattle.paper.specs.Tokens.{same};
ghost use Rattle.paper_table.specs.Lists.{any_of};
ghost use Rattle.paper_table.specs.Types.{member_named};
ghost use Rattle.table_book.specs.Book.{part, room, count_in};
ghost use Rattle.table_types.specs.Booked.{Booked, kind_in, definition_on};
ghost use Rattle.table_possible.specs.Possible.{bits_size, bit_at, Possible, Blank, Marked};

use paper_table::{RECORD_INTERFACE, RECORD_OBJECT, RECORD_UNION};

// The numbers that hold the bits; an object's, and the bits of one.
pub const BITS_SIZE: usize = 2048;

const CELLS: usize = 8;

const WIDTH: usize = 32;

// Is the bit of the interface or union i and the object j set?
pub fn is_set(bits: &[u32], i: usize, j: usize) -> bool
    requires { (length bits.now ≡ bits_size) × (i < room) × (j < room) }
    ensures { result ≡ eqb (bit_at bits.now i j) 1 }
{
    (bits[CELLS * j + i / WIDTH] >> ((i % WIDTH) as u32)) % 2 == 1
}

// Sets it.
fn mark(bits: &mut [u32], i: usize, j: usize)
    requires { (length bits.old ≡ bits_size) × (i < room) × (j < room) }
    ensures { Marked bits.old bits.new i j }
{
    let k = CELLS * j + i / WIDTH;
    bits[k] = bits[k] | (1 << ((i % WIDTH) as u32));
}

// Marks the object j for the interface that it implements by the name of n bytes from `at` on.
fn mark_interface(t: &[u8], book: &[u32], bits: &mut [u32], j: usize, at: usize, n: usize)
    requires { Booked t.now book.now × Possible t.now book.now bits.old × (j < count_in book.now) × (kind_in book.now j ≡ tag_object) × (at + n ≤ length t.now) × (any_of (same (part t.now at n)) (definition_on t.now j).implements ≡ true) }
    ensures { Possible t.now book.now bits.new }
{
    let i = table_types::number_meant(t, book, t, at, n);
    if table_types::kind_in(book, i) == RECORD_INTERFACE {
        mark(bits, i, j);
    }
}

// Marks the object j for the interfaces that it implements.
fn mark_object(t: &[u8], book: &[u32], bits: &mut [u32], j: usize)
    requires { Booked t.now book.now × Possible t.now book.now bits.old × (j < count_in book.now) × (kind_in book.now j ≡ tag_object) }
    ensures { Possible t.now book.now bits.new }
{
    let end = table_book::end_of(book, j);
    let mut i = table_book::start_of(book, j);
    loop {
        let Some(f) = table_members::next_implemented(t, i, end) else {
            return;
        };
        mark_interface(t, book, bits, j, f.start, f.end - f.start);
        i = f.end;
    }
}

// Marks the object that the union i names by the n bytes from `at` on.
fn mark_member(t: &[u8], book: &[u32], bits: &mut [u32], i: usize, at: usize, n: usize)
    requires { Booked t.now book.now × Possible t.now book.now bits.old × (i < count_in book.now) × (kind_in book.now i ≡ tag_union) × (at + n ≤ length t.now) × (any_of (member_named (part t.now at n)) (definition_on t.now i).members ≡ true) }
    ensures { Possible t.now book.now bits.new }
{
    let j = table_types::number_meant(t, book, t, at, n);
    if table_types::kind_in(book, j) == RECORD_OBJECT {
        mark(bits, i, j);
    }
}

// Marks the objects that the union i names.
fn mark_union(t: &[u8], book: &[u32], bits: &mut [u32], i: usize)
    requires { Booked t.now book.now × Possible t.now book.now bits.old × (i < count_in book.now) × (kind_in book.now i ≡ tag_union) }
    ensures { Possible t.now book.now bits.new }
{
    let end = table_book::end_of(book, i);
    let mut m = table_book::start_of(book, i);
    loop {
        let Some(f) = table_members::next_member(t, m, end) else {
            return;
        };
        let name = table_members::member_name(t, f.tag, f.start, f.end);
        mark_member(t, book, bits, i, name.at, name.size);
        m = f.end;
    }
}

// Marks what definition k alone says.
fn mark_definition(t: &[u8], book: &[u32], bits: &mut [u32], k: usize)
    requires { Booked t.now book.now × Possible t.now book.now bits.old × (k < count_in book.now) }
    ensures { Possible t.now book.now bits.new }
{
    let kind = table_types::kind_in(book, k);
    if kind == RECORD_OBJECT {
        mark_object(t, book, bits, k);
        return;
    }
    if kind == RECORD_UNION {
        mark_union(t, book, bits, k);
    }
}

// Sets the bits of a table.
pub fn fill(t: &[u8], book: &[u32], bits: &mut [u32])
    requires { Booked t.now book.now × Blank bits.old }
    ensures { Possible t.now book.now bits.new }
{
    let count = table_book::count_of(book);
    for k in 0..count {
        mark_definition(t, book, bits, k);
    }
}
