// Reads a table's parts: one house field, one name, one type reference's text, the first field of a tag.
// Nothing is asked of the bytes; a part is named by where it starts and where it ends.
#![tactic(auto)]

ghost use Rattle.std.specs.Prelude.{◌≡◌, ◌+◌};
ghost use Rattle.std.proofs.Math.Seq.{slice};
ghost use Rattle.paper_table.specs.References.{is_name, is_reference, name_size};
ghost use Rattle.table_fields.specs.Fields.{field_at, Bounds, Finds};
ghost use Rattle.table_fields.specs.Wrappers.{bracket_size, wrapper_of, is_marked, RefersRead};

use paper::{WRAP_BASE, WRAP_LIST, WRAP_NON_NULL};

// A house field: its tag, and where its content starts and ends.
#[derive(Clone, Copy)]
pub struct Field {
    pub tag: u8,
    pub start: usize,
    pub end: usize,
}

// The field whose tag byte stands at `at`, in a content that ends at `end`; none if the bytes there are no whole field.
pub fn read_field(t: &[u8], at: usize, end: usize) -> Option<Field>
    requires { Bounds t.now at end }
    ensures { result ≡ field_at t.now at end }
{
    if end - at < 3 {
        return None;
    }
    let n = 256 * (t[at + 1] as usize) + t[at + 2] as usize;
    if n <= end - at - 3 {
        return Some(Field {
            tag: t[at],
            start: at + 3,
            end: at + 3 + n,
        });
    }
    None
}

// A part of the table.
#[derive(Clone, Copy)]
pub struct Part {
    pub start: usize,
    pub end: usize,
}

// The content of the first field with this tag, from `at` on; no bytes if there is none.
pub fn find_tag(t: &[u8], at: usize, end: usize, tag: u8) -> Part
    requires { Bounds t.now at end }
    ensures { Finds t.now at end tag result.start result.end }
{
    let mut i = at;
    while i < end {
        let Some(f) = read_field(t, i, end) else {
            return Part {
                start: end,
                end: end,
            };
        };
        if f.tag == tag {
            return Part {
                start: f.start,
                end: f.end,
            };
        }
        i = f.end;
    }
    Part {
        start: end,
        end: end,
    }
}

// Where the bytes of a name end, from `start` on.
pub fn name_end(t: &[u8], start: usize, end: usize) -> usize
    requires { Bounds t.now start end }
    ensures { result ≡ start + name_size (slice start end t.now) }
{
    for i in start..end {
        if !text_characters::in_name(t[i]) {
            return i;
        }
    }
    end
}

// Is this part one name?
pub fn is_name(t: &[u8], start: usize, end: usize) -> bool
    requires { Bounds t.now start end }
    ensures { result ≡ is_name (slice start end t.now) }
{
    if start == end {
        return false;
    }
    if !text_characters::starts_name(t[start]) {
        return false;
    }
    name_end(t, start + 1, end) == end
}

pub const BYTE_BANG: u8 = 0x21;

pub const BYTE_BRACKET_L: u8 = 0x5b;

pub const BYTE_BRACKET_R: u8 = 0x5d;

// A type reference's text: where its name lies, and its wrappers as one number, from outside in, lowest two bits first, 1 list, 2 Non-Null;
// of more than seven the outer seven.
#[derive(Clone, Copy)]
pub struct Reference {
    pub start: usize,
    pub end: usize,
    pub wrappers: u32,
}

pub const PACK_LIMIT: u32 = 16384;

// Where the `[` end, from `start` on.
fn brackets_end(t: &[u8], start: usize, end: usize) -> usize
    requires { Bounds t.now start end }
    ensures { result ≡ start + bracket_size (slice start end t.now) }
{
    for i in start..end {
        if t[i] != BYTE_BRACKET_L {
            return i;
        }
    }
    end
}

// The wrapper that a byte behind a reference adds: 1 for the `]` of an open list, 2 for a `!` behind what is not Non-Null, else 0.
fn wrapper(wrappers: u32, lists: usize, b: u8) -> u32
    ensures { result ≡ wrapper_of (is_marked wrappers) lists b }
{
    if b == BYTE_BANG {
        if wrappers % WRAP_BASE == WRAP_NON_NULL {
            return 0;
        }
        return WRAP_NON_NULL;
    }
    if b == BYTE_BRACKET_R {
        if lists == 0 {
            return 0;
        }
        return WRAP_LIST;
    }
    0
}

// The type reference whose text this part is; none if it is no reference's text.
pub fn read_reference(t: &[u8], start: usize, end: usize) -> Option<Reference>
    requires { Bounds t.now start end }
    ensures { RefersRead t.now start end result }
{
    let from = brackets_end(t, start, end);
    if from == end {
        return None;
    }
    if !text_characters::starts_name(t[from]) {
        return None;
    }
    let to = name_end(t, from + 1, end);
    let mut lists = from - start;
    let mut wrappers = 0;
    for i in to..end {
        let w = wrapper(wrappers, lists, t[i]);
        if w == 0 {
            return None;
        }
        wrappers = (WRAP_BASE * wrappers + w) % PACK_LIMIT;
        lists -= (w % 2) as usize;
    }
    if lists == 0 {
        return Some(Reference {
            start: from,
            end: to,
            wrappers,
        });
    }
    None
}

// Is this part a type reference's text?
pub fn is_reference(t: &[u8], start: usize, end: usize) -> bool
    requires { Bounds t.now start end }
    ensures { result ≡ is_reference (slice start end t.now) }
{
    read_reference(t, start, end).is_some()
}
