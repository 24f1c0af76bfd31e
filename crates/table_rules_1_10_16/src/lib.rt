// The schema rules 1 to 10 and 16 on one definition of a table: Err has the first place that breaks the rule; Ok: none does.
// Nothing is asked of the table but its sizes.
#![tactic(auto)]

ghost use Rattle.std.specs.Prelude.{◌≡◌, ◌&&◌, ◌||◌, ◌+◌, ◌≤◌, ◌<◌, length, eqb};
ghost use mathlib.Core.List.{head?};
ghost use Rattle.paper_table.specs.Lists.{only_if};
ghost use Rattle.paper_table.specs.Types.{table_of, is_type, is_directive};
ghost use Rattle.paper_table.specs.Places.{whole_of};
ghost use Rattle.paper_table.specs.Rule1ReservedName.{reserved_name};
ghost use Rattle.paper_table.specs.Rule2NameKnown.{type_known, directive_known, name_known};
ghost use Rattle.paper_table.specs.Rule3NoMembers.{needs_members, no_members};
ghost use Rattle.paper_table.specs.Rule4NameRepeated.{name_repeated};
ghost use Rattle.paper_table.specs.Rule5ReservedMember.{reserved_member};
ghost use Rattle.paper_table.specs.Rule6EnumValue.{enum_value};
ghost use Rattle.paper_table.specs.Rule7NoType.{no_type};
ghost use Rattle.paper_table.specs.Rule8Base.{wrong_base};
ghost use Rattle.paper_table.specs.Rule9NotObjectOrInterface.{not_object_or_interface};
ghost use Rattle.paper_table.specs.Rule10ImplementedTwice.{implemented_twice};
ghost use Rattle.paper_table.specs.Rule16Root.{root_not_object};
ghost use Rattle.table_places.specs.Placed.{placed};
ghost use Rattle.table_book.specs.Book.{count_in};
ghost use Rattle.table_members.specs.Members.{Named};
ghost use Rattle.table_types.specs.Booked.{Booked, definition_on};
ghost use Rattle.table_walks.specs.Walks.{members_at, implemented_at};

use paper_table::{
    NO_PLACE, RECORD_DIRECTIVE, RECORD_ENUM, RECORD_INPUT_OBJECT, RECORD_INTERFACE, RECORD_OBJECT,
    RECORD_ROOTS, RECORD_UNION, RULE_BASE, RULE_ENUM_VALUE, RULE_IMPLEMENTED_TWICE,
    RULE_NAME_REPEATED, RULE_NO_TYPE, RULE_NOT_OBJECT_OR_INTERFACE, RULE_RESERVED_MEMBER,
    RULE_ROOT,
};
use table_members::Name;
use table_places::Place;

// Definition i's tag.
fn tag_of(t: &[u8], book: &[u32], i: usize) -> u32
    requires { Booked t.now book.now × (i < count_in book.now) }
    ensures { result ≡ (definition_on t.now i).tag }
{
    table_book::kind_of(book, i)
}

// Definition i's name.
fn name_of(t: &[u8], book: &[u32], i: usize) -> Name
    requires { Booked t.now book.now × (i < count_in book.now) }
    ensures { Named t.now result.at result.size (definition_on t.now i).name }
{
    Name {
        at: table_book::name_of(book, i),
        size: table_book::size_of(book, i),
    }
}

// The definition itself, if it is broken.
fn whole(broken: bool) -> Result<(), Place>
    ensures { result ≡ placed (head? (only_if broken whole_of)) }
{
    if broken {
        return Err(Place {
            member: NO_PLACE,
            part: NO_PLACE,
            argument: NO_PLACE,
        });
    }
    Ok(())
}

// The first member or argument of definition i that breaks the rule.
fn members_of(t: &[u8], book: &[u32], rule: u32, i: usize) -> Result<(), Place>
    requires { Booked t.now book.now × (i < count_in book.now) }
    ensures { result ≡ placed (head? (members_at rule (table_of t.now) (definition_on t.now i).members)) }
{
    table_walks::members_place(
        t,
        book,
        rule,
        table_book::start_of(book, i),
        table_book::end_of(book, i),
    )
}

// The first name that definition i implements and that breaks the rule.
fn implemented_of(t: &[u8], book: &[u32], rule: u32, i: usize) -> Result<(), Place>
    requires { Booked t.now book.now × (i < count_in book.now) }
    ensures { result ≡ placed (head? (implemented_at rule (table_of t.now) (definition_on t.now i).implements)) }
{
    table_walks::implemented_place(
        t,
        book,
        rule,
        table_book::start_of(book, i),
        table_book::end_of(book, i),
    )
}

// 1. Type or directive name begins `__`.
pub fn reserved_name(t: &[u8], book: &[u32], i: usize) -> Result<(), Place>
    requires { Booked t.now book.now × (i < count_in book.now) }
    ensures { result ≡ placed (head? (reserved_name (table_of t.now) i (definition_on t.now i))) }
{
    let n = name_of(t, book, i);
    whole(table_names::is_reserved(t, n.at, n.size))
}

// Is the name of definition i a built-in scalar's, or a type's before it?
fn is_type_before(t: &[u8], book: &[u32], i: usize) -> bool
    requires { Booked t.now book.now × (i < count_in book.now) }
    ensures { result ≡ type_known (table_of t.now) i (definition_on t.now i) }
{
    let n = name_of(t, book, i);
    if table_types::is_built_in(t, n.at, n.size) {
        return true;
    }
    table_types::first_type(t, book, t, n.at, n.size) < i
}

// The same of directives.
fn is_directive_before(t: &[u8], book: &[u32], i: usize) -> bool
    requires { Booked t.now book.now × (i < count_in book.now) }
    ensures { result ≡ directive_known (table_of t.now) i (definition_on t.now i) }
{
    let n = name_of(t, book, i);
    if table_names::is_known_directive(t, n.at, n.size) {
        return true;
    }
    table_types::first_directive(t, book, t, n.at, n.size) < i
}

// 2. Name already known or defined before, types and directives apart.
pub fn name_known(t: &[u8], book: &[u32], i: usize) -> Result<(), Place>
    requires { Booked t.now book.now × (i < count_in book.now) }
    ensures { result ≡ placed (head? (name_known (table_of t.now) i (definition_on t.now i))) }
{
    let tag = tag_of(t, book, i);
    if tag <= RECORD_INPUT_OBJECT {
        return whole(is_type_before(t, book, i));
    }
    if tag == RECORD_DIRECTIVE {
        return whole(is_directive_before(t, book, i));
    }
    Ok(())
}

// Has definition i no member?
fn is_empty(t: &[u8], book: &[u32], i: usize) -> bool
    requires { Booked t.now book.now × (i < count_in book.now) }
    ensures { result ≡ eqb (length (definition_on t.now i).members) 0 }
{
    let start = table_book::start_of(book, i);
    let end = table_book::end_of(book, i);
    table_members::next_member(t, start, end).is_none()
}

// 3. A type other than a scalar without members.
pub fn no_members(t: &[u8], book: &[u32], i: usize) -> Result<(), Place>
    requires { Booked t.now book.now × (i < count_in book.now) }
    ensures { result ≡ placed (head? (no_members (table_of t.now) i (definition_on t.now i))) }
{
    let tag = tag_of(t, book, i);
    if tag < RECORD_OBJECT {
        return Ok(());
    }
    if RECORD_INPUT_OBJECT < tag {
        return Ok(());
    }
    whole(is_empty(t, book, i))
}

// 4. Member or argument repeats an earlier name beside it.
pub fn name_repeated(t: &[u8], book: &[u32], i: usize) -> Result<(), Place>
    requires { Booked t.now book.now × (i < count_in book.now) }
    ensures { result ≡ placed (head? (name_repeated (table_of t.now) i (definition_on t.now i))) }
{
    if tag_of(t, book, i) == RECORD_ROOTS {
        return Ok(());
    }
    members_of(t, book, RULE_NAME_REPEATED, i)
}

// 5. Object or interface field, or its argument, begins `__`.
pub fn reserved_member(t: &[u8], book: &[u32], i: usize) -> Result<(), Place>
    requires { Booked t.now book.now × (i < count_in book.now) }
    ensures { result ≡ placed (head? (reserved_member (table_of t.now) i (definition_on t.now i))) }
{
    let tag = tag_of(t, book, i);
    if tag == RECORD_OBJECT {
        return members_of(t, book, RULE_RESERVED_MEMBER, i);
    }
    if tag == RECORD_INTERFACE {
        return members_of(t, book, RULE_RESERVED_MEMBER, i);
    }
    Ok(())
}

// 6. Enum value `true`, `false`, `null`.
pub fn enum_value(t: &[u8], book: &[u32], i: usize) -> Result<(), Place>
    requires { Booked t.now book.now × (i < count_in book.now) }
    ensures { result ≡ placed (head? (enum_value (table_of t.now) i (definition_on t.now i))) }
{
    if tag_of(t, book, i) == RECORD_ENUM {
        return members_of(t, book, RULE_ENUM_VALUE, i);
    }
    Ok(())
}

// 7. Reference to no type.
pub fn no_type(t: &[u8], book: &[u32], i: usize) -> Result<(), Place>
    requires { Booked t.now book.now × (i < count_in book.now) }
    ensures { result ≡ placed (head? (no_type (table_of t.now) i (definition_on t.now i))) }
{
    members_of(t, book, RULE_NO_TYPE, i)
}

// 8. Field type with base input object; argument or input field type with base object, interface or union.
pub fn wrong_base(t: &[u8], book: &[u32], i: usize) -> Result<(), Place>
    requires { Booked t.now book.now × (i < count_in book.now) }
    ensures { result ≡ placed (head? (wrong_base (table_of t.now) i (definition_on t.now i))) }
{
    members_of(t, book, RULE_BASE, i)
}

// 9. Union member not an object, implemented name not an interface.
pub fn not_object_or_interface(t: &[u8], book: &[u32], i: usize) -> Result<(), Place>
    requires { Booked t.now book.now × (i < count_in book.now) }
    ensures { result ≡ placed (head? (not_object_or_interface (table_of t.now) i (definition_on t.now i))) }
{
    if tag_of(t, book, i) == RECORD_UNION {
        return members_of(t, book, RULE_NOT_OBJECT_OR_INTERFACE, i);
    }
    implemented_of(t, book, RULE_NOT_OBJECT_OR_INTERFACE, i)
}

// 10. Interface implemented twice.
pub fn implemented_twice(t: &[u8], book: &[u32], i: usize) -> Result<(), Place>
    requires { Booked t.now book.now × (i < count_in book.now) }
    ensures { result ≡ placed (head? (implemented_twice (table_of t.now) i (definition_on t.now i))) }
{
    implemented_of(t, book, RULE_IMPLEMENTED_TWICE, i)
}

// 16. A root isn't an object type: at record 8.
pub fn root_not_object(t: &[u8], book: &[u32], i: usize) -> Result<(), Place>
    requires { Booked t.now book.now × (i < count_in book.now) }
    ensures { result ≡ placed (head? (root_not_object (table_of t.now) i (definition_on t.now i))) }
{
    if tag_of(t, book, i) == RECORD_ROOTS {
        return members_of(t, book, RULE_ROOT, i);
    }
    Ok(())
}
