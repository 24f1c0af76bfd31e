// What a name in a table means, by the type's tag: the base of a reference, an implemented name.
// Nothing is asked of the table but its sizes.
#![tactic(auto)]

ghost use Rattle.std.specs.Prelude.{◌≡◌, ◌-◌};
ghost use Rattle.paper_table.specs.Types.{table_of, type_in};
ghost use Rattle.paper_table.specs.Rule7NoType.{base_meant};
ghost use Rattle.table_fields.specs.Fields.{Bounds};
ghost use Rattle.table_book.specs.Book.{part};
ghost use Rattle.table_members.specs.Members.{fields_in, implemented_in};
ghost use Rattle.table_types.specs.Booked.{Booked};
ghost use Rattle.table_bases.specs.Meanings.{implemented_fails};

use paper_table::{RECORD_INTERFACE, RULE_IMPLEMENTED_TWICE};

// Rules 7 and 8: the tag of the type that the reference in a content has as its base, 0 of no type.
pub fn base_tag(t: &[u8], book: &[u32], start: usize, end: usize) -> u32
    requires { Booked t.now book.now × Bounds t.now start end }
    ensures { result ≡ (base_meant (table_of t.now) (type_in (fields_in t.now start end))).tag }
{
    let r = table_members::type_in(t, start, end);
    table_types::tag_meant(t, book, t, r.at, r.size)
}

// Does an implemented name of the record from `from` up to `end`, its number m, break a rule? (10; else that it is no interface's: 9.)
pub fn is_implemented_broken(
    t: &[u8],
    book: &[u32],
    rule: u32,
    from: usize,
    end: usize,
    m: u32,
    start: usize,
    stop: usize,
) -> bool
    requires { Booked t.now book.now × Bounds t.now from end × Bounds t.now start stop }
    ensures { result ≡ implemented_fails rule (table_of t.now) (implemented_in t.now from end) m (part t.now start (stop - start)) }
{
    if rule == RULE_IMPLEMENTED_TWICE {
        return table_names::is_implemented_before(t, from, end, m, start, stop - start);
    }
    table_types::tag_meant(t, book, t, start, stop - start) != RECORD_INTERFACE
}
