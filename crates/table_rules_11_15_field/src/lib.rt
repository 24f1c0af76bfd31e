// The schema rules 11 to 15 at one field of an interface and the definition's own, by the rule's number: Err has the first place that
// breaks it; Ok: none does.
// Of the table nothing is asked but its sizes.
#![tactic(auto)]

ghost use Rattle.std.specs.Prelude.{◌≡◌, true, eqb};
ghost use mathlib.Core.List.{head?};
ghost use Rattle.paper_table.specs.Lists.{only_if};
ghost use Rattle.paper_table.specs.Places.{part_at};
ghost use Rattle.paper_table.specs.Types.{table_of};
ghost use Rattle.paper_table.specs.TableNumbers.{rule_field_missing, rule_field_type};
ghost use Rattle.table_places.specs.Placed.{placed};
ghost use Rattle.table_fields.specs.Fields.{Bounds};
ghost use Rattle.table_members.specs.Members.{member_from};
ghost use Rattle.table_types.specs.Booked.{Booked};
ghost use Rattle.table_types.specs.Sizes.{slim_member};
ghost use Rattle.table_rules_11_15_field.specs.Asked.{rule_asked};

use paper_table::{NO_PLACE, RULE_ARGUMENT_EXTRA, RULE_FIELD_MISSING, RULE_FIELD_TYPE};
use table_places::Place;

// Rule 12 of the interface's field with this tag and content, and the definition's own.
fn type_place(
    t: &[u8],
    book: &[u32],
    member: u32,
    part: u32,
    tag: u8,
    start: usize,
    end: usize,
    own_tag: u8,
    from: usize,
    stop: usize,
) -> Result<(), Place>
    requires { Booked t.now book.now × Bounds t.now start end × Bounds t.now from stop × (slim_member (member_from t.now tag start end) ≡ true) × (slim_member (member_from t.now own_tag from stop) ≡ true) }
    ensures { result ≡ placed (head? (rule_asked rule_field_type (table_of t.now) member part (member_from t.now tag start end) (member_from t.now own_tag from stop))) }
{
    let q = table_members::member_type(t, tag, start, end);
    let r = table_members::member_type(t, own_tag, from, stop);
    if table_types::is_sub_type(t, book, r, q) {
        return Ok(());
    }
    Err(Place {
        member: member,
        part: part,
        argument: NO_PLACE,
    })
}

// What the rule shows first of the interface's field with this tag and content, and the definition's own.
pub fn own_place(
    t: &[u8],
    book: &[u32],
    rule: u32,
    member: u32,
    part: u32,
    tag: u8,
    start: usize,
    end: usize,
    own_tag: u8,
    from: usize,
    stop: usize,
) -> Result<(), Place>
    requires { Booked t.now book.now × Bounds t.now start end × Bounds t.now from stop × (slim_member (member_from t.now tag start end) ≡ true) × (slim_member (member_from t.now own_tag from stop) ≡ true) }
    ensures { result ≡ placed (head? (rule_asked rule (table_of t.now) member part (member_from t.now tag start end) (member_from t.now own_tag from stop))) }
{
    if rule == RULE_FIELD_MISSING {
        return Ok(());
    }
    if rule == RULE_FIELD_TYPE {
        return type_place(t, book, member, part, tag, start, end, own_tag, from, stop);
    }
    let a = table_members::arguments_from(t, tag, start, end);
    let b = table_members::arguments_from(t, own_tag, from, stop);
    if rule == RULE_ARGUMENT_EXTRA {
        return table_rules_13_15::first_wrong(t, rule, b, stop, a, end, member, part);
    }
    table_rules_13_15::first_wrong(t, rule, a, end, b, stop, member, part)
}

// What the rule shows of an interface's field that the definition lacks.
pub fn lacking(rule: u32, member: u32, part: u32) -> Result<(), Place>
    ensures { result ≡ placed (head? (only_if (eqb rule rule_field_missing) (part_at member part))) }
{
    if rule != RULE_FIELD_MISSING {
        return Ok(());
    }
    Err(Place {
        member: member,
        part: part,
        argument: NO_PLACE,
    })
}
