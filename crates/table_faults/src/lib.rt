// Whether a member or an argument breaks a schema rule: the tests that the rules' walks share.
// Nothing is asked of the table but its sizes.
#![tactic(auto)]

ghost use Rattle.std.specs.Prelude.{◌≡◌};
ghost use Rattle.paper_table.specs.Types.{table_of};
ghost use Rattle.paper_table.specs.Rule7NoType.{member_type_unknown};
ghost use Rattle.paper_table.specs.Rule8Base.{member_base_wrong};
ghost use Rattle.table_fields.specs.Fields.{Bounds};
ghost use Rattle.table_members.specs.Members.{members_in, arguments_in, member_from, argument_from};
ghost use Rattle.table_types.specs.Booked.{Booked};
ghost use Rattle.table_faults.specs.Faults.{member_fails, argument_fails};

use paper_table::{
    RECORD_INPUT_OBJECT, RECORD_OBJECT, RULE_BASE, RULE_ENUM_VALUE, RULE_NAME_REPEATED,
    RULE_NO_TYPE, RULE_RESERVED_MEMBER, TAG_ARGUMENT, TAG_FIELD,
};
use table_types::NO_TYPE;

// Rule 7, of the member with this tag and content.
fn is_member_unknown(t: &[u8], book: &[u32], tag: u8, start: usize, end: usize) -> bool
    requires { Booked t.now book.now × Bounds t.now start end }
    ensures { result ≡ member_type_unknown (table_of t.now) 0 (member_from t.now tag start end) }
{
    if tag == TAG_FIELD {
        return table_bases::base_tag(t, book, start, end) == NO_TYPE;
    }
    if tag == TAG_ARGUMENT {
        return table_bases::base_tag(t, book, start, end) == NO_TYPE;
    }
    false
}

// Rule 8, of the member with this tag and content.
fn is_member_base_wrong(t: &[u8], book: &[u32], tag: u8, start: usize, end: usize) -> bool
    requires { Booked t.now book.now × Bounds t.now start end }
    ensures { result ≡ member_base_wrong (table_of t.now) 0 (member_from t.now tag start end) }
{
    if tag == TAG_FIELD {
        return table_bases::base_tag(t, book, start, end) == RECORD_INPUT_OBJECT;
    }
    if tag == TAG_ARGUMENT {
        return table_types::is_composite(table_bases::base_tag(t, book, start, end));
    }
    false
}

// Does a member of the record from `from` up to `end`, its number m, break a rule? (4 to 8; else that its name is an object's: 9 and 16.)
pub fn is_member_broken(
    t: &[u8],
    book: &[u32],
    rule: u32,
    from: usize,
    end: usize,
    m: u32,
    tag: u8,
    start: usize,
    stop: usize,
) -> bool
    requires { Booked t.now book.now × Bounds t.now from end × Bounds t.now start stop }
    ensures { result ≡ member_fails rule (table_of t.now) (members_in t.now from end) m (member_from t.now tag start stop) }
{
    if rule == RULE_NO_TYPE {
        return is_member_unknown(t, book, tag, start, stop);
    }
    if rule == RULE_BASE {
        return is_member_base_wrong(t, book, tag, start, stop);
    }
    let name = table_members::member_name(t, tag, start, stop);
    if rule == RULE_NAME_REPEATED {
        return table_names::is_member_before(t, from, end, m, name.at, name.size);
    }
    if rule == RULE_RESERVED_MEMBER {
        return table_names::is_reserved(t, name.at, name.size);
    }
    if rule == RULE_ENUM_VALUE {
        return table_names::is_no_enum_value(t, name.at, name.size);
    }
    table_types::tag_meant(t, book, t, name.at, name.size) != RECORD_OBJECT
}

// Does an argument of the field from `from` up to `end`, its number a, break a rule? (4, 5, 7 or 8; no other asks this.)
pub fn is_argument_broken(
    t: &[u8],
    book: &[u32],
    rule: u32,
    from: usize,
    end: usize,
    a: u32,
    start: usize,
    stop: usize,
) -> bool
    requires { Booked t.now book.now × Bounds t.now from end × Bounds t.now start stop }
    ensures { result ≡ argument_fails rule (table_of t.now) (arguments_in t.now from end) a (argument_from t.now start stop) }
{
    if rule == RULE_NO_TYPE {
        return table_bases::base_tag(t, book, start, stop) == NO_TYPE;
    }
    if rule == RULE_BASE {
        return table_types::is_composite(table_bases::base_tag(t, book, start, stop));
    }
    let name = table_members::name_in(t, start, stop);
    if rule == RULE_NAME_REPEATED {
        return table_names::is_argument_before(t, from, end, a, name.at, name.size);
    }
    if rule == RULE_RESERVED_MEMBER {
        return table_names::is_reserved(t, name.at, name.size);
    }
    false
}
