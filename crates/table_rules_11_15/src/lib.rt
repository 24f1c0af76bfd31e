// The schema rules 11 to 15: what the interfaces that a definition implements ask of its fields. Err has the first place that breaks
// the rule; Ok: none does.
// Of the table nothing is asked but its sizes.
#![tactic(auto)]

ghost use Rattle.std.specs.Prelude.{◌≡◌, true, ◌-◌, ◌<◌};
ghost use mathlib.Core.List.{head?};
ghost use Rattle.paper_table.specs.Lists.{all_of, each};
ghost use Rattle.paper_table.specs.Promises.{promised_by, promised};
ghost use Rattle.paper_table.specs.Rule11FieldMissing.{interface_field_missing};
ghost use Rattle.paper_table.specs.Rule12FieldType.{field_type};
ghost use Rattle.paper_table.specs.Rule13ArgumentMissing.{interface_argument_missing};
ghost use Rattle.paper_table.specs.Rule14ArgumentType.{argument_type};
ghost use Rattle.paper_table.specs.Rule15ArgumentExtra.{argument_extra};
ghost use Rattle.paper_table.specs.Types.{table_of};
ghost use Rattle.table_places.specs.Placed.{placed};
ghost use Rattle.table_fields.specs.Fields.{Bounds};
ghost use Rattle.table_book.specs.Book.{part, count_in};
ghost use Rattle.table_members.specs.Members.{members_in, implemented_in, member_from};
ghost use Rattle.table_types.specs.Booked.{Booked, start_in, end_in, definition_on};
ghost use Rattle.table_listing.specs.Listed.{Listed};
ghost use Rattle.table_types.specs.Sizes.{slim_member, Slim};
ghost use Rattle.table_rules_11_15.specs.Asked.{asked_of};

use paper_table::{
    RECORD_INTERFACE, RULE_ARGUMENT_EXTRA, RULE_ARGUMENT_MISSING, RULE_ARGUMENT_TYPE,
    RULE_FIELD_MISSING, RULE_FIELD_TYPE,
};
use table_places::Place;

// What the rule shows first of an interface's field, where the definition's members stand from `from` up to `stop`, and in the book `listed`.
fn field_place(
    t: &[u8],
    book: &[u32],
    listed: &[u32],
    rule: u32,
    member: u32,
    part: u32,
    tag: u8,
    start: usize,
    end: usize,
    from: usize,
    stop: usize,
) -> Result<(), Place>
    requires { Booked t.now book.now × Bounds t.now start end × Bounds t.now from stop × (slim_member (member_from t.now tag start end) ≡ true) × (all_of slim_member (members_in t.now from stop) ≡ true) × Listed t.now listed.now from stop }
    ensures { result ≡ placed (head? (asked_of rule (table_of t.now) (members_in t.now from stop) member part (member_from t.now tag start end))) }
{
    let n = table_members::member_name(t, tag, start, end);
    let Some(f) = table_listing::find_listed(t, listed, from, stop, t, n.at, n.size) else {
        return table_rules_11_15_field::lacking(rule, member, part);
    };
    table_rules_11_15_field::own_place(
        t, book, rule, member, part, tag, start, end, f.tag, f.start, f.end,
    )
}

// The same, of the fields of the interface whose content stands from `at` up to `end`.
fn interface_place(
    t: &[u8],
    book: &[u32],
    listed: &[u32],
    rule: u32,
    member: u32,
    at: usize,
    end: usize,
    from: usize,
    stop: usize,
) -> Result<(), Place>
    requires { Booked t.now book.now × Bounds t.now at end × Bounds t.now from stop × (all_of slim_member (members_in t.now at end) ≡ true) × (all_of slim_member (members_in t.now from stop) ≡ true) × Listed t.now listed.now from stop }
    ensures { result ≡ placed (head? (each (asked_of rule (table_of t.now) (members_in t.now from stop) member) (members_in t.now at end))) }
{
    let mut i = at;
    let mut p = 0;
    loop {
        let Some(f) = table_members::next_member(t, i, end) else {
            return Ok(());
        };
        field_place(
            t, book, listed, rule, member, p, f.tag, f.start, f.end, from, stop,
        )?;
        i = f.end;
        p += 1;
    }
}

// The same, of the implemented name that stands from `at` up to `end`.
fn name_place(
    t: &[u8],
    book: &[u32],
    listed: &[u32],
    rule: u32,
    member: u32,
    at: usize,
    end: usize,
    from: usize,
    stop: usize,
) -> Result<(), Place>
    requires { Booked t.now book.now × Slim (table_of t.now) × Bounds t.now at end × Bounds t.now from stop × (all_of slim_member (members_in t.now from stop) ≡ true) × Listed t.now listed.now from stop }
    ensures { result ≡ placed (head? (promised_by (asked_of rule (table_of t.now) (members_in t.now from stop)) (table_of t.now) member (part t.now at (end - at)))) }
{
    let k = table_types::number_meant(t, book, t, at, end - at);
    if table_types::kind_in(book, k) != RECORD_INTERFACE {
        return Ok(());
    }
    interface_place(
        t,
        book,
        listed,
        rule,
        member,
        table_book::start_of(book, k),
        table_book::end_of(book, k),
        from,
        stop,
    )
}

// The same, of all the names that the definition with the content from `from` up to `stop` implements.
fn first_place(
    t: &[u8],
    book: &[u32],
    listed: &[u32],
    rule: u32,
    from: usize,
    stop: usize,
) -> Result<(), Place>
    requires { Booked t.now book.now × Slim (table_of t.now) × Bounds t.now from stop × (all_of slim_member (members_in t.now from stop) ≡ true) × Listed t.now listed.now from stop }
    ensures { result ≡ placed (head? (each (promised_by (asked_of rule (table_of t.now) (members_in t.now from stop)) (table_of t.now)) (implemented_in t.now from stop))) }
{
    let mut i = from;
    let mut m = 0;
    loop {
        let Some(f) = table_members::next_implemented(t, i, stop) else {
            return Ok(());
        };
        name_place(t, book, listed, rule, m, f.start, f.end, from, stop)?;
        i = f.end;
        m += 1;
    }
}

// The first place of definition i that breaks the rule.
fn broken(t: &[u8], book: &[u32], listed: &[u32], rule: u32, i: usize) -> Result<(), Place>
    requires { Booked t.now book.now × Slim (table_of t.now) × (i < count_in book.now) × Listed t.now listed.now (start_in book.now i) (end_in book.now i) }
    ensures { result ≡ placed (head? (promised (asked_of rule (table_of t.now) (definition_on t.now i).members) (table_of t.now) (definition_on t.now i))) }
{
    first_place(
        t,
        book,
        listed,
        rule,
        table_book::start_of(book, i),
        table_book::end_of(book, i),
    )
}

// 11. Interface field missing.
pub fn field_missing(t: &[u8], book: &[u32], listed: &[u32], i: usize) -> Result<(), Place>
    requires { Booked t.now book.now × Slim (table_of t.now) × (i < count_in book.now) × Listed t.now listed.now (start_in book.now i) (end_in book.now i) }
    ensures { result ≡ placed (head? (interface_field_missing (table_of t.now) i (definition_on t.now i))) }
{
    broken(t, book, listed, RULE_FIELD_MISSING, i)
}

// 12. Field type not a sub-type.
pub fn field_type(t: &[u8], book: &[u32], listed: &[u32], i: usize) -> Result<(), Place>
    requires { Booked t.now book.now × Slim (table_of t.now) × (i < count_in book.now) × Listed t.now listed.now (start_in book.now i) (end_in book.now i) }
    ensures { result ≡ placed (head? (field_type (table_of t.now) i (definition_on t.now i))) }
{
    broken(t, book, listed, RULE_FIELD_TYPE, i)
}

// 13. Interface argument missing.
pub fn argument_missing(t: &[u8], book: &[u32], listed: &[u32], i: usize) -> Result<(), Place>
    requires { Booked t.now book.now × Slim (table_of t.now) × (i < count_in book.now) × Listed t.now listed.now (start_in book.now i) (end_in book.now i) }
    ensures { result ≡ placed (head? (interface_argument_missing (table_of t.now) i (definition_on t.now i))) }
{
    broken(t, book, listed, RULE_ARGUMENT_MISSING, i)
}

// 14. Argument type differs.
pub fn argument_type(t: &[u8], book: &[u32], listed: &[u32], i: usize) -> Result<(), Place>
    requires { Booked t.now book.now × Slim (table_of t.now) × (i < count_in book.now) × Listed t.now listed.now (start_in book.now i) (end_in book.now i) }
    ensures { result ≡ placed (head? (argument_type (table_of t.now) i (definition_on t.now i))) }
{
    broken(t, book, listed, RULE_ARGUMENT_TYPE, i)
}

// 15. Extra argument Non-Null.
pub fn argument_extra(t: &[u8], book: &[u32], listed: &[u32], i: usize) -> Result<(), Place>
    requires { Booked t.now book.now × Slim (table_of t.now) × (i < count_in book.now) × Listed t.now listed.now (start_in book.now i) (end_in book.now i) }
    ensures { result ≡ placed (head? (argument_extra (table_of t.now) i (definition_on t.now i))) }
{
    broken(t, book, listed, RULE_ARGUMENT_EXTRA, i)
}
