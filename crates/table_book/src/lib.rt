// A book of a holder's fields with an index of their names.
#![tactic(auto)]

ghost use Rattle.std.specs.Prelude.{◌≡◌, true, false, ◌+◌, ◌-◌, ◌*◌, ◌≤◌, ◌<◌, length, take, drop, get_or, set};
ghost use Rattle.paper.specs.Tokens.{same};
ghost use Rattle.paper_table.specs.Lists.{first_at};
ghost use Rattle.table_book.specs.Book.{part, room, cell_name, cell_size, cell_start, cell_end, cell_count, cell_next, cell_head, book_size, count_in, key_at, keys_of, keyed, Held, hash_limit, multiplier_of, hash_of, Indexed, Cleared, Linked, hash_from};

// where the columns of a book begin: kinds at 0, then names, their sizes, contents' starts and ends, the count; next of each entry, first of each bucket, the seed
pub const ROOM: usize = 256;

pub const CELL_NAME: usize = 256;

pub const CELL_SIZE: usize = 512;

pub const CELL_START: usize = 768;

pub const CELL_END: usize = 1024;

pub const CELL_COUNT: usize = 1280;

pub const CELL_NEXT: usize = 1281;

pub const CELL_HEAD: usize = 1537;

pub const CELL_SEED: usize = 1793;

pub const BOOK_SIZE: usize = 1794;

fn wide(x: u32) -> usize
    ensures { result ≡ x }
{
    x as usize
}

// Entry j's kind, the start and size of its name, the start and end of its content.
pub fn kind_of(book: &[u32], j: usize) -> u32
    requires { (length book.now ≡ book_size) × (j < room) }
    ensures { result ≡ get_or book.now j 0 }
{
    book[j]
}

pub fn name_of(book: &[u32], j: usize) -> usize
    requires { (length book.now ≡ book_size) × (j < room) }
    ensures { result ≡ get_or book.now (cell_name + j) 0 }
{
    wide(book[CELL_NAME + j])
}

pub fn size_of(book: &[u32], j: usize) -> usize
    requires { (length book.now ≡ book_size) × (j < room) }
    ensures { result ≡ get_or book.now (cell_size + j) 0 }
{
    wide(book[CELL_SIZE + j])
}

pub fn start_of(book: &[u32], j: usize) -> usize
    requires { (length book.now ≡ book_size) × (j < room) }
    ensures { result ≡ get_or book.now (cell_start + j) 0 }
{
    wide(book[CELL_START + j])
}

pub fn end_of(book: &[u32], j: usize) -> usize
    requires { (length book.now ≡ book_size) × (j < room) }
    ensures { result ≡ get_or book.now (cell_end + j) 0 }
{
    wide(book[CELL_END + j])
}

// How many entries there are.
pub fn count_of(book: &[u32]) -> usize
    requires { length book.now ≡ book_size }
    ensures { result ≡ count_in book.now }
{
    wide(book[CELL_COUNT])
}

// The entry after j in its bucket; the first of a bucket.
fn next_of(book: &[u32], j: usize) -> usize
    requires { (length book.now ≡ book_size) × (j < room) }
    ensures { result ≡ get_or book.now (cell_next + j) 0 }
{
    wide(book[CELL_NEXT + j])
}

fn head_of(book: &[u32], h: usize) -> usize
    requires { (length book.now ≡ book_size) × (h < room) }
    ensures { result ≡ get_or book.now (cell_head + h) 0 }
{
    wide(book[CELL_HEAD + h])
}

// Do the n bytes of s from a on equal those of t from b on?
pub fn same_text(s: &[u8], a: usize, t: &[u8], b: usize, n: usize) -> bool
    requires { (a + n ≤ length s.now) × (b + n ≤ length t.now) }
    ensures { result ≡ same (part s.now a n) (part t.now b n) }
{
    s[a..a + n] == t[b..b + n]
}

// Is the text of l bytes from a on in t the one of n bytes from `at` on in s? Lengths first.
pub fn is_text(t: &[u8], a: usize, l: usize, s: &[u8], at: usize, n: usize) -> bool
    requires { (a + l ≤ length t.now) × (at + n ≤ length s.now) }
    ensures { result ≡ same (part t.now a l) (part s.now at n) }
{
    if l != n {
        return false;
    }
    same_text(t, a, s, at, n)
}

// A step of the hash multiplies a number below this, plus a byte, by a multiplier below this: that fits 64 bits.
const HASH_LIMIT: usize = 2147483648;

// 2^32 divided by the square of the golden ratio. Odd, so that a step loses nothing: names that differ in one byte alone never have one hash.
// Large, so that short names reach the high bits: T0 to T255 come into 172 buckets, three names at most in one; multiplied by 31 they come into two.
const FIRST_MULTIPLIER: usize = 1640531527;

// Twice the prime 2654435761 (near 2^32 divided by the golden ratio), modulo 2^32. Even, so that all multipliers are odd; twice an odd number, so that
// no two of the 256 seeds have the same.
const MULTIPLIER_STEP: usize = 1013904226;

// The bucket is the highest 8 of 31 bits, which depend on all bits below. The lowest 8 did as well for the sets of 256 names that were tried.
const BUCKET_SIZE: usize = 8388608;

// The multiplier of a seed: odd, and another one for each.
fn multiplier(seed: u32) -> usize
    ensures { (result ≡ multiplier_of seed) × (result < hash_limit) }
{
    (FIRST_MULTIPLIER + MULTIPLIER_STEP * wide(seed)) % HASH_LIMIT
}

// The hash of the n bytes of s from `at` on, below HASH_LIMIT: its highest bits are a bucket.
pub fn mixed(s: &[u8], at: usize, n: usize, seed: u32) -> usize
    requires { at + n ≤ length s.now }
    ensures { (result ≡ hash_from (multiplier_of seed) 0 (part s.now at n)) × (result < hash_limit) }
{
    let m = multiplier(seed);
    let mut h = 0;
    for b in &s[at..at + n] {
        h = (h + *b as usize) * m % HASH_LIMIT;
    }
    h
}

// The bucket of the name of n bytes from `at` on.
fn hash(s: &[u8], at: usize, n: usize, seed: u32) -> usize
    requires { at + n ≤ length s.now }
    ensures { (result ≡ hash_of seed (part s.now at n)) × (result < room) }
{
    mixed(s, at, n, seed) / BUCKET_SIZE
}

// Is entry j of a kind from low to high, and its name the n bytes of s from `at` on?
fn is_keyed(
    t: &[u8],
    book: &[u32],
    j: usize,
    low: u32,
    high: u32,
    s: &[u8],
    at: usize,
    n: usize,
) -> bool
    requires { Held t.now book.now × (j < count_in book.now) × (at + n ≤ length s.now) }
    ensures { result ≡ keyed low high (part s.now at n) (key_at t.now book.now j) }
{
    let kind = kind_of(book, j);
    if kind < low {
        return false;
    }
    if high < kind {
        return false;
    }
    is_text(t, name_of(book, j), size_of(book, j), s, at, n)
}

// The number of the first entry of a kind from low to high whose name is the n bytes of s from `at` on; the count of entries if there is none.
pub fn find_key(t: &[u8], book: &[u32], low: u32, high: u32, s: &[u8], at: usize, n: usize) -> usize
    requires { Indexed t.now book.now × (at + n ≤ length s.now) }
    ensures { result ≡ first_at (keyed low high (part s.now at n)) (keys_of t.now book.now) }
{
    let count = count_of(book);
    let h = hash(s, at, n, book[CELL_SEED]);
    let mut k = head_of(book, h);
    while k < count {
        if is_keyed(t, book, k, low, high, s, at, n) {
            return k;
        }
        k = next_of(book, k);
    }
    k
}

// Every bucket is at its end.
fn clear_heads(book: &mut [u32])
    requires { length book.old ≡ book_size }
    ensures { Cleared book.old book.new }
{
    let count = book[CELL_COUNT];
    book[CELL_HEAD..CELL_HEAD + ROOM].fill(count);
}

// Puts entry j in front of the bucket h.
fn put_first(book: &mut [u32], h: usize, j: usize)
    requires { (length book.old ≡ book_size) × (h < room) × (j < room) }
    ensures { book.new ≡ set (set book.old (cell_next + j) (get_or book.old (cell_head + h) 0)) (cell_head + h) j }
{
    book[CELL_NEXT + j] = book[CELL_HEAD + h];
    book[CELL_HEAD + h] = j as u32;
}

// Links a book's entries by the seed, from the last to the first, so that each bucket's stand in order. Says whether a bucket is crowded.
fn link_by(t: &[u8], book: &mut [u32], seed: u32) -> bool
    requires { Held t.now book.old }
    ensures { Linked t.now book.old book.new }
{
    book[CELL_SEED] = seed;
    clear_heads(book);
    let mut crowded = false;
    for j in (0..count_of(book)).rev() {
        let h = hash(t, name_of(book, j), size_of(book, j), seed);
        crowded |= is_full(book, h);
        put_first(book, h, j);
    }
    crowded
}

// How many entries a bucket may have, and how many seeds there are. Of 256 names made at random more than five share a bucket by one seed in seven,
// more than four by three in five.
const MOST_IN_BUCKET: u32 = 5;

const SEEDS: u32 = 256;

// Has the bucket h as many entries as it may?
fn is_full(book: &[u32], h: usize) -> bool
    requires { (length book.now ≡ book_size) × (count_in book.now ≤ room) × (h < room) }
{
    let count = count_of(book);
    let mut k = head_of(book, h);
    for _ in 0..MOST_IN_BUCKET {
        if count <= k {
            return false;
        }
        k = next_of(book, k);
    }
    true
}

// Links a book's entries. Names that one seed puts into one bucket another seed parts; the one tried first is the book's own.
pub fn link(t: &[u8], book: &mut [u32])
    requires { Held t.now book.old }
    ensures { Linked t.now book.old book.new }
{
    let mut seed = book[CELL_SEED] % SEEDS;
    let mut crowded = link_by(t, book, seed);
    for _ in 0..SEEDS {
        if !crowded {
            return;
        }
        seed = (seed + 1) % SEEDS;
        crowded = link_by(t, book, seed);
    }
}
