// Variables that are like one before them, in name, place and owner: what operations say of the one, they say of the other.
// So these are not compared with the operations, but get its flag.
#![tactic(auto)]

ghost use Rattle.std.specs.Prelude.{◌≡◌, ◌-◌, ◌≤◌, ◌<◌, length, get_or};
ghost use Rattle.paper.specs.Numbers.{kind_variable};
ghost use Rattle.paper_table.specs.Types.{table_of};
ghost use Rattle.query_rows.specs.Rowed.{row_in, rows_in, doc_of, Sized, room_of};
ghost use Rattle.query_links.specs.Links.{Kinds};
ghost use Rattle.query_alike_pair.specs.Alike.{Unlinked};
ghost use Rattle.query_alike.specs.Flags.{like_first, FlagsTo, LikenedTo, Models, ModelOf, Likened, own_flag};

use paper::KIND_VARIABLE;
use query_alike_pair::is_like;
use query_links::link_of;

// from here on a flag says which row the variable is like, until it is settled
pub const LIKE_FIRST: u16 = 4096;

// how many models, the newest, a variable is compared with: a bound on the work
const MOST_MODELS: usize = 64;

// Where the newest of m models begin.
fn newest(m: usize) -> usize
    ensures { result ≤ m }
{
    if m < MOST_MODELS {
        return 0;
    }
    m - MOST_MODELS
}

// Number k of the stack.
fn model_at(stack: &[u16], k: usize) -> usize
    requires { k < length stack.now }
    ensures { result ≡ get_or stack.now k 0 }
{
    stack[k] as usize
}

// The newest model that the variable of row i is like, among the first m of the stack; n if none of the last is.
fn model_of(
    t: &[u8],
    s: &[u8],
    rows: &[u32],
    n: usize,
    at: &[u16],
    es: &[u16],
    wrappers: &[u16],
    owner: &[u16],
    stack: &[u16],
    m: usize,
    i: usize,
) -> usize
    requires { Unlinked t.now s.now rows.now n at.now es.now wrappers.now owner.now × Models (doc_of s.now rows.now n) stack.now m i × ((row_in rows.now n i).kind ≡ kind_variable) }
    ensures { result < n → ModelOf (table_of t.now) (doc_of s.now rows.now n) stack.now m i result }
{
    let end = newest(m);
    for k in (end..m).rev() {
        let model = model_at(stack, k);
        if is_like(t, s, rows, n, at, es, wrappers, owner, i, model) {
            return model;
        }
    }
    n
}

// Likens the variable of row i to one of the first m on the stack, or puts it there too; how many are there then.
fn liken_one(
    t: &[u8],
    s: &[u8],
    rows: &[u32],
    n: usize,
    at: &[u16],
    es: &[u16],
    wrappers: &[u16],
    owner: &[u16],
    stack: &mut [u16],
    flag: &mut [u16],
    m: usize,
    i: usize,
) -> usize
    requires { Unlinked t.now s.now rows.now n at.now es.now wrappers.now owner.now × Models (doc_of s.now rows.now n) stack.old m i × ((row_in rows.now n i).kind ≡ kind_variable) × (length flag.old ≡ room_of n) }
    ensures { Likened (table_of t.now) (doc_of s.now rows.now n) i stack.old flag.old m stack.new flag.new result }
{
    let model = model_of(t, s, rows, n, at, es, wrappers, owner, stack, m, i);
    if model < n {
        flag[i] = LIKE_FIRST + model as u16;
        return m;
    }
    stack[m] = i as u16;
    m + 1
}

// Likens each variable to one before it, where one is found.
pub fn liken(
    t: &[u8],
    s: &[u8],
    rows: &[u32],
    n: usize,
    firstk: &[u16],
    nextk: &[u16],
    at: &[u16],
    es: &[u16],
    wrappers: &[u16],
    owner: &[u16],
    stack: &mut [u16],
    flag: &mut [u16],
)
    requires { Unlinked t.now s.now rows.now n at.now es.now wrappers.now owner.now × Kinds (rows_in rows.now n) firstk.now nextk.now × (length stack.old ≡ room_of n) × FlagsTo (table_of t.now) (doc_of s.now rows.now n) n 0 flag.old }
    ensures { LikenedTo (table_of t.now) (doc_of s.now rows.now n) n 0 flag.new }
{
    let mut m = 0;
    let mut v = link_of(firstk, KIND_VARIABLE as usize);
    while v < n {
        m = liken_one(t, s, rows, n, at, es, wrappers, owner, stack, flag, m, v);
        v = link_of(nextk, v);
    }
}

// The flag of row i, or of the row that it is said to be like.
fn own_flag(flag: &[u16], i: usize) -> u16
    requires { (i < length flag.now) × (like_first ≤ get_or flag.now i 0 → get_or flag.now i 0 - like_first < length flag.now) }
    ensures { result ≡ own_flag flag.now i }
{
    let f = flag[i];
    if f < LIKE_FIRST {
        return f;
    }
    flag[(f - LIKE_FIRST) as usize]
}

// Gives each variable that is like another the flag of that.
pub fn settle(
    t: &[u8],
    s: &[u8],
    rows: &[u32],
    n: usize,
    firstk: &[u16],
    nextk: &[u16],
    flag: &mut [u16],
)
    requires { Sized rows.now n × Kinds (rows_in rows.now n) firstk.now nextk.now × LikenedTo (table_of t.now) (doc_of s.now rows.now n) n n flag.old }
    ensures { FlagsTo (table_of t.now) (doc_of s.now rows.now n) n n flag.new }
{
    let mut v = link_of(firstk, KIND_VARIABLE as usize);
    while v < n {
        flag[v] = own_flag(flag, v);
        v = link_of(nextk, v);
    }
}
