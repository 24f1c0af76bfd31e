// Tests of a name that the schema rules share: by its bytes, and by the names before it.
// Nothing is asked of the table but its sizes.
#![tactic(auto)]

ghost use Rattle.std.specs.Prelude.{◌≡◌, ◌+◌, ◌≤◌, length, take};
ghost use Rattle.paper.specs.Tokens.{same};
ghost use Rattle.paper_table.specs.Lists.{any_of};
ghost use Rattle.paper_table.specs.Types.{built_in_directives, is_reserved, member_named, argument_named};
ghost use Rattle.paper_table.specs.Rule6EnumValue.{no_enum_values};
ghost use Rattle.table_fields.specs.Fields.{Bounds};
ghost use Rattle.table_book.specs.Book.{part};
ghost use Rattle.table_members.specs.Members.{members_in, arguments_in, implemented_in};

const UNDERSCORE: u8 = 0x5f;

// Rules 1 and 5: does the name of n bytes from `at` on begin `__`?
pub fn is_reserved(t: &[u8], at: usize, n: usize) -> bool
    requires { at + n ≤ length t.now }
    ensures { result ≡ is_reserved (part t.now at n) }
{
    if n < 2 {
        return false;
    }
    if t[at] != UNDERSCORE {
        return false;
    }
    t[at + 1] == UNDERSCORE
}

// Rule 2: is it the name of a directive that is always known?
pub fn is_known_directive(t: &[u8], at: usize, n: usize) -> bool
    requires { at + n ≤ length t.now }
    ensures { result ≡ any_of (same (part t.now at n)) built_in_directives }
{
    if table_book::is_text(t, at, n, b"skip", 0, 4) {
        return true;
    }
    table_book::is_text(t, at, n, b"include", 0, 7)
}

// Rule 4: has one of the first `count` members, from `from` on, the name of n bytes from `at` on?
pub fn is_member_before(t: &[u8], from: usize, end: usize, count: u32, at: usize, n: usize) -> bool
    requires { Bounds t.now from end × (at + n ≤ length t.now) }
    ensures { result ≡ any_of (member_named (part t.now at n)) (take count (members_in t.now from end)) }
{
    let mut i = from;
    for _ in 0..count {
        let Some(f) = table_members::next_member(t, i, end) else {
            return false;
        };
        let m = table_members::member_name(t, f.tag, f.start, f.end);
        if table_book::is_text(t, m.at, m.size, t, at, n) {
            return true;
        }
        i = f.end;
    }
    false
}

// The same of a field's arguments.
pub fn is_argument_before(
    t: &[u8],
    from: usize,
    end: usize,
    count: u32,
    at: usize,
    n: usize,
) -> bool
    requires { Bounds t.now from end × (at + n ≤ length t.now) }
    ensures { result ≡ any_of (argument_named (part t.now at n)) (take count (arguments_in t.now from end)) }
{
    let mut i = from;
    for _ in 0..count {
        let Some(f) = table_members::next_argument(t, i, end) else {
            return false;
        };
        let m = table_members::name_in(t, f.start, f.end);
        if table_book::is_text(t, m.at, m.size, t, at, n) {
            return true;
        }
        i = f.end;
    }
    false
}

// Rule 10: is one of the first `count` implemented names the n bytes from `at` on?
pub fn is_implemented_before(
    t: &[u8],
    from: usize,
    end: usize,
    count: u32,
    at: usize,
    n: usize,
) -> bool
    requires { Bounds t.now from end × (at + n ≤ length t.now) }
    ensures { result ≡ any_of (same (part t.now at n)) (take count (implemented_in t.now from end)) }
{
    let mut i = from;
    for _ in 0..count {
        let Some(f) = table_members::next_implemented(t, i, end) else {
            return false;
        };
        if table_book::is_text(t, at, n, t, f.start, f.end - f.start) {
            return true;
        }
        i = f.end;
    }
    false
}

// Rule 6: is it `true`, `false` or `null`?
pub fn is_no_enum_value(t: &[u8], at: usize, n: usize) -> bool
    requires { at + n ≤ length t.now }
    ensures { result ≡ any_of (same (part t.now at n)) no_enum_values }
{
    if table_book::is_text(t, at, n, b"true", 0, 4) {
        return true;
    }
    if table_book::is_text(t, at, n, b"false", 0, 5) {
        return true;
    }
    table_book::is_text(t, at, n, b"null", 0, 4)
}
