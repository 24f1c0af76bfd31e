// Walks over the contents of a table: a record's members and the names it implements, a member's name and arguments.
// Nothing is asked of the bytes; a content is named by where it starts and where it ends.
#![tactic(auto)]

ghost use Rattle.std.specs.Prelude.{◌≡◌, true, false, ◌+◌, ◌-◌, ◌≤◌, ◌<◌, length};
ghost use Rattle.std.proofs.Math.Seq.{slice};
ghost use Rattle.paper.specs.Tokens.{same};
ghost use Rattle.paper_table.specs.Lists.{any_of};
ghost use Rattle.paper_table.specs.Types.{name_in, type_in, member_named};
ghost use Rattle.table_fields.specs.Fields.{Bounds};
ghost use Rattle.table_book.specs.Book.{part};
ghost use Rattle.table_members.specs.Members.{fields_in, members_in, implemented_in, member_from, is_member, NextTag, NextMember, NextArgument, NextImplemented, Named, Typed, ArgumentsFrom, FindMember, FindArgument};

use paper_table::{
    TAG_ARGUMENT, TAG_FIELD, TAG_IMPLEMENTS, TAG_NAME, TAG_REFERENCE, TAG_UNION_MEMBER,
};
use table_fields::Field;

// A name's place in the table.
#[derive(Clone, Copy)]
pub struct Name {
    pub at: usize,
    pub size: usize,
}

// A type reference: the place of its name, and its wrappers as one number, from outside in, lowest two bits first, 1 list, 2 Non-Null;
// of more than seven the outer seven.
#[derive(Clone, Copy)]
pub struct TypeRead {
    pub at: usize,
    pub size: usize,
    pub wrappers: u32,
}

// The next field of this tag, from `at` on, in a content that ends at `end`; none if there is none.
pub fn next_tag(t: &[u8], at: usize, end: usize, tag: u8) -> Option<Field>
    requires { Bounds t.now at end }
    ensures { NextTag t.now at end tag result }
{
    let mut i = at;
    while i < end {
        let f = table_fields::read_field(t, i, end)?;
        if f.tag == tag {
            return Some(f);
        }
        i = f.end;
    }
    None
}

// Is it the tag of a member?
fn is_member(tag: u8) -> bool
    ensures { result ≡ is_member tag }
{
    if tag == TAG_FIELD {
        return true;
    }
    if tag == TAG_ARGUMENT {
        return true;
    }
    TAG_UNION_MEMBER <= tag
}

// A record's next member, from `at` on; none if there is none.
pub fn next_member(t: &[u8], at: usize, end: usize) -> Option<Field>
    requires { Bounds t.now at end }
    ensures { NextMember t.now at end result }
{
    let mut i = at;
    while i < end {
        let f = table_fields::read_field(t, i, end)?;
        if is_member(f.tag) {
            return Some(f);
        }
        i = f.end;
    }
    None
}

// A member's next argument, from `at` on; none if there is none.
pub fn next_argument(t: &[u8], at: usize, end: usize) -> Option<Field>
    requires { Bounds t.now at end }
    ensures { NextArgument t.now at end result }
{
    next_tag(t, at, end, TAG_ARGUMENT)
}

// The next name that a record implements, from `at` on; none if there is none.
pub fn next_implemented(t: &[u8], at: usize, end: usize) -> Option<Field>
    requires { Bounds t.now at end }
    ensures { NextImplemented t.now at end result }
{
    next_tag(t, at, end, TAG_IMPLEMENTS)
}

// The name in a content; no bytes if there is none.
pub fn name_in(t: &[u8], start: usize, end: usize) -> Name
    requires { Bounds t.now start end }
    ensures { Named t.now result.at result.size (name_in (fields_in t.now start end)) }
{
    let Some(f) = next_tag(t, start, end, TAG_NAME) else {
        return Name { at: start, size: 0 };
    };
    Name {
        at: f.start,
        size: f.end - f.start,
    }
}

// The name of the member with this tag and content.
pub fn member_name(t: &[u8], tag: u8, start: usize, end: usize) -> Name
    requires { Bounds t.now start end }
    ensures { Named t.now result.at result.size (member_from t.now tag start end).name }
{
    if tag == TAG_FIELD {
        return name_in(t, start, end);
    }
    if tag == TAG_ARGUMENT {
        return name_in(t, start, end);
    }
    Name {
        at: start,
        size: end - start,
    }
}

// The type in a content; one of no name if there is none.
pub fn type_in(t: &[u8], start: usize, end: usize) -> TypeRead
    requires { Bounds t.now start end }
    ensures { Typed t.now result.at result.size result.wrappers (type_in (fields_in t.now start end)) }
{
    let p = table_fields::find_tag(t, start, end, TAG_REFERENCE);
    let Some(r) = table_fields::read_reference(t, p.start, p.end) else {
        return TypeRead {
            at: start,
            size: 0,
            wrappers: 0,
        };
    };
    TypeRead {
        at: r.start,
        size: r.end - r.start,
        wrappers: r.wrappers,
    }
}

// The type of the member with this tag and content; one of no name if it has none.
pub fn member_type(t: &[u8], tag: u8, start: usize, end: usize) -> TypeRead
    requires { Bounds t.now start end }
    ensures { Typed t.now result.at result.size result.wrappers (member_from t.now tag start end).type }
{
    if tag == TAG_FIELD {
        return type_in(t, start, end);
    }
    if tag == TAG_ARGUMENT {
        return type_in(t, start, end);
    }
    TypeRead {
        at: start,
        size: 0,
        wrappers: 0,
    }
}

// From where on, up to `end`, a member's arguments stand: a field alone has some.
pub fn arguments_from(t: &[u8], tag: u8, start: usize, end: usize) -> usize
    requires { Bounds t.now start end }
    ensures { ArgumentsFrom t.now tag start end result }
{
    if tag != TAG_FIELD {
        return end;
    }
    start
}

// Is a member's name the n bytes of s from `at` on?
fn is_member_named(
    t: &[u8],
    tag: u8,
    start: usize,
    end: usize,
    s: &[u8],
    at: usize,
    n: usize,
) -> bool
    requires { Bounds t.now start end × (at + n ≤ length s.now) }
    ensures { result ≡ member_named (part s.now at n) (member_from t.now tag start end) }
{
    let m = member_name(t, tag, start, end);
    table_book::is_text(t, m.at, m.size, s, at, n)
}

// Is the name in a content the n bytes of s from `at` on?
fn is_named(t: &[u8], start: usize, end: usize, s: &[u8], at: usize, n: usize) -> bool
    requires { Bounds t.now start end × (at + n ≤ length s.now) }
    ensures { result ≡ same (name_in (fields_in t.now start end)) (part s.now at n) }
{
    let m = name_in(t, start, end);
    table_book::is_text(t, m.at, m.size, s, at, n)
}

// A record's first member, from `from` on, whose name is the n bytes of s from `at` on; none if there is none.
pub fn find_member(
    t: &[u8],
    from: usize,
    end: usize,
    s: &[u8],
    at: usize,
    n: usize,
) -> Option<Field>
    requires { Bounds t.now from end × (at + n ≤ length s.now) }
    ensures { FindMember t.now from end (part s.now at n) result }
{
    let mut i = from;
    loop {
        let f = next_member(t, i, end)?;
        if is_member_named(t, f.tag, f.start, f.end, s, at, n) {
            return Some(f);
        }
        i = f.end;
    }
}

// A member's first argument, from `from` on, whose name is the n bytes of s from `at` on; none if there is none.
pub fn find_argument(
    t: &[u8],
    from: usize,
    end: usize,
    s: &[u8],
    at: usize,
    n: usize,
) -> Option<Field>
    requires { Bounds t.now from end × (at + n ≤ length s.now) }
    ensures { FindArgument t.now from end (part s.now at n) result }
{
    let mut i = from;
    loop {
        let f = next_argument(t, i, end)?;
        if is_named(t, f.start, f.end, s, at, n) {
            return Some(f);
        }
        i = f.end;
    }
}

// Does a record implement the name that is the n bytes of s from `at` on?
pub fn implements(t: &[u8], from: usize, end: usize, s: &[u8], at: usize, n: usize) -> bool
    requires { Bounds t.now from end × (at + n ≤ length s.now) }
    ensures { result ≡ any_of (same (part s.now at n)) (implemented_in t.now from end) }
{
    let mut i = from;
    loop {
        let Some(f) = next_implemented(t, i, end) else {
            return false;
        };
        if table_book::is_text(s, at, n, t, f.start, f.end - f.start) {
            return true;
        }
        i = f.end;
    }
}
