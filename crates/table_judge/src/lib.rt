// The first break of a table's schema: definition by definition, of each the sixteen rules in turn, then `Query`.
// Nothing is asked of the table but its sizes.
#![tactic(auto)]

ghost use Rattle.std.specs.Prelude.{◌≡◌, true, Err, ◌+◌, ◌≤◌, ◌<◌, length};
ghost use Rattle.std.proofs.Math.Option.{none};
ghost use mathlib.Core.List.{head?};
ghost use Rattle.paper_table.specs.TableNumbers.{rule_root};
ghost use Rattle.paper_table.specs.Lists.{any_of};
ghost use Rattle.paper_table.specs.Types.{table_of, is_roots};
ghost use Rattle.paper_table.specs.Judging.{breaks_of, breaks, table_answer};
ghost use Rattle.table_places.specs.Placed.{placed};
ghost use Rattle.table_book.specs.Book.{room, book_size, count_in};
ghost use Rattle.table_types.specs.Booked.{Booked, definition_on, start_in, end_in};
ghost use Rattle.table_listing.specs.Listed.{Listed};
ghost use Rattle.table_possible.specs.Possible.{Possible};
ghost use Rattle.table_types.specs.Sizes.{Slim};
ghost use Rattle.table_rules_4_8_quick.specs.Sound.{Sound};
ghost use Rattle.table_judge.specs.Schema.{early_rule, promise_rule, late_rule, rule_of, NextRule, shown_at, query_answer, Checkable, Promising, Answered};

use paper_table::{
    NO_PLACE, RECORD_OBJECT, RULE_ARGUMENT_MISSING, RULE_ARGUMENT_TYPE, RULE_BASE, RULE_ENUM_VALUE,
    RULE_FIELD_MISSING, RULE_FIELD_TYPE, RULE_IMPLEMENTED_TWICE, RULE_NAME_KNOWN,
    RULE_NAME_REPEATED, RULE_NO_MEMBERS, RULE_NO_TYPE, RULE_NOT_OBJECT_OR_INTERFACE,
    RULE_RESERVED_MEMBER, RULE_RESERVED_NAME, RULE_ROOT, TableAnswer,
};
use table_places::Place;

// What a rule from 1 to 8 shows first of definition i: Err has its first place; Ok: it is kept.
fn early_place(t: &[u8], book: &[u32], rule: u32, i: usize) -> Result<(), Place>
    requires { Booked t.now book.now × (i < count_in book.now) }
    ensures { result ≡ placed (head? (early_rule rule (table_of t.now) i (definition_on t.now i))) }
{
    if rule == RULE_RESERVED_NAME {
        return table_rules_1_10_16::reserved_name(t, book, i);
    }
    if rule == RULE_NAME_KNOWN {
        return table_rules_1_10_16::name_known(t, book, i);
    }
    if rule == RULE_NO_MEMBERS {
        return table_rules_1_10_16::no_members(t, book, i);
    }
    if rule == RULE_NAME_REPEATED {
        return table_rules_1_10_16::name_repeated(t, book, i);
    }
    if rule == RULE_RESERVED_MEMBER {
        return table_rules_1_10_16::reserved_member(t, book, i);
    }
    if rule == RULE_ENUM_VALUE {
        return table_rules_1_10_16::enum_value(t, book, i);
    }
    if rule == RULE_NO_TYPE {
        return table_rules_1_10_16::no_type(t, book, i);
    }
    table_rules_1_10_16::wrong_base(t, book, i)
}

// The same of a rule from 11 to 15, by the list of the definition's members.
fn promise_place(t: &[u8], book: &[u32], listed: &[u32], rule: u32, i: usize) -> Result<(), Place>
    requires { Booked t.now book.now × Slim (table_of t.now) × (i < count_in book.now) × Listed t.now listed.now (start_in book.now i) (end_in book.now i) }
    ensures { result ≡ placed (head? (promise_rule rule (table_of t.now) i (definition_on t.now i))) }
{
    if rule == RULE_FIELD_MISSING {
        return table_rules_11_15::field_missing(t, book, listed, i);
    }
    if rule == RULE_FIELD_TYPE {
        return table_rules_11_15::field_type(t, book, listed, i);
    }
    if rule == RULE_ARGUMENT_MISSING {
        return table_rules_11_15::argument_missing(t, book, listed, i);
    }
    if rule == RULE_ARGUMENT_TYPE {
        return table_rules_11_15::argument_type(t, book, listed, i);
    }
    table_rules_11_15::argument_extra(t, book, listed, i)
}

// The same of a rule from 9 to 16.
fn late_place(
    t: &[u8],
    book: &[u32],
    listed: &[u32],
    promising: bool,
    rule: u32,
    i: usize,
) -> Result<(), Place>
    requires { Booked t.now book.now × Slim (table_of t.now) × (i < count_in book.now) × Promising t.now book.now listed.now i promising }
    ensures { result ≡ placed (head? (late_rule rule (table_of t.now) i (definition_on t.now i))) }
{
    if rule == RULE_NOT_OBJECT_OR_INTERFACE {
        return table_rules_1_10_16::not_object_or_interface(t, book, i);
    }
    if rule == RULE_IMPLEMENTED_TWICE {
        return table_rules_1_10_16::implemented_twice(t, book, i);
    }
    if rule == RULE_ROOT {
        return table_rules_1_10_16::root_not_object(t, book, i);
    }
    if promising {
        return promise_place(t, book, listed, rule, i);
    }
    Ok(())
}

// The same of any rule.
fn rule_place(
    t: &[u8],
    book: &[u32],
    listed: &[u32],
    promising: bool,
    rule: u32,
    i: usize,
) -> Result<(), Place>
    requires { Booked t.now book.now × Slim (table_of t.now) × (i < count_in book.now) × Promising t.now book.now listed.now i promising }
    ensures { result ≡ placed (head? (rule_of rule (table_of t.now) i (definition_on t.now i))) }
{
    if rule <= RULE_BASE {
        return early_place(t, book, rule, i);
    }
    late_place(t, book, listed, promising, rule, i)
}

// What is said of a rule's first place in definition i.
fn shown(i: usize, rule: u32, p: Place) -> TableAnswer
    requires { i < room }
    ensures { result ≡ shown_at i rule (Err p) }
{
    TableAnswer::Breaks {
        definition: i as u32,
        rule: rule,
        member: p.member,
        part: p.part,
        argument: p.argument,
    }
}

// The rule to ask after this one, which is kept: 4 to 8 are passed over where the definition is known to keep them, and 11 to 15.
fn next_rule(clean: bool, promising: bool, rule: u32) -> u32
    requires { rule ≤ rule_root }
    ensures { NextRule clean promising rule result }
{
    if rule == RULE_NO_MEMBERS {
        if clean {
            return RULE_NOT_OBJECT_OR_INTERFACE;
        }
        return rule + 1;
    }
    if rule == RULE_IMPLEMENTED_TWICE {
        if promising {
            return rule + 1;
        }
        return RULE_ROOT;
    }
    rule + 1
}

// The first break of definition i, the rules in turn.
fn rules_in_turn(
    t: &[u8],
    book: &[u32],
    listed: &[u32],
    clean: bool,
    promising: bool,
    i: usize,
) -> TableAnswer
    requires { Booked t.now book.now × Slim (table_of t.now) × (i < count_in book.now) × Promising t.now book.now listed.now i promising × (clean ≡ true → Sound (table_of t.now) i (definition_on t.now i)) }
    ensures { result ≡ table_answer none none (head? (breaks_of (table_of t.now) i (definition_on t.now i))) }
{
    let mut rule = RULE_RESERVED_NAME;
    while rule <= RULE_ROOT {
        if let Err(p) = rule_place(t, book, listed, promising, rule, i) {
            return shown(i, rule, p);
        }
        rule = next_rule(clean, promising, rule);
    }
    TableAnswer::Accepted
}

// Lists the members of definition i, if it implements anything, and says whether one of the rules 11 to 15 may be broken.
fn list_promises(t: &[u8], book: &[u32], bits: &[u32], listed: &mut [u32], i: usize) -> bool
    requires { Checkable t.now book.now × Possible t.now book.now bits.now × (i < count_in book.now) × (length listed.old ≡ book_size) }
    ensures { Promising t.now book.now listed.new i result }
{
    let start = table_book::start_of(book, i);
    let end = table_book::end_of(book, i);
    if table_members::next_implemented(t, start, end).is_none() {
        return false;
    }
    table_listing::list_members(t, listed, start, end);
    !table_rules_11_15_quick::is_all_kept(t, book, bits, listed, i)
}

// The first break of definition i.
fn definition_breaks(
    t: &[u8],
    book: &[u32],
    bits: &[u32],
    listed: &mut [u32],
    i: usize,
) -> TableAnswer
    requires { Checkable t.now book.now × Possible t.now book.now bits.now × (i < count_in book.now) × (length listed.old ≡ book_size) }
    ensures { Answered listed.new result (table_answer none none (head? (breaks_of (table_of t.now) i (definition_on t.now i)))) }
{
    let promising = list_promises(t, book, bits, listed, i);
    let clean = table_rules_4_8_quick::is_sound(t, book, i);
    rules_in_turn(t, book, listed, clean, promising, i)
}

// Is there a record 8?
fn has_roots(t: &[u8], book: &[u32]) -> bool
    requires { Booked t.now book.now }
    ensures { result ≡ any_of is_roots (table_of t.now) }
{
    table_types::first_roots(t, book) < table_book::count_of(book)
}

// 16, without record 8: `Query` isn't an object type.
fn query_break(t: &[u8], book: &[u32]) -> TableAnswer
    requires { Booked t.now book.now }
    ensures { result ≡ query_answer (table_of t.now) }
{
    if has_roots(t, book) {
        return TableAnswer::Accepted;
    }
    if table_types::kind_in(book, table_types::first_query(t, book)) == RECORD_OBJECT {
        return TableAnswer::Accepted;
    }
    TableAnswer::Breaks {
        definition: table_book::count_of(book) as u32,
        rule: RULE_ROOT,
        member: NO_PLACE,
        part: NO_PLACE,
        argument: NO_PLACE,
    }
}

// The first break of a table; `listed` is room for the list of one definition's members.
pub fn first_break(t: &[u8], book: &[u32], bits: &[u32], listed: &mut [u32]) -> TableAnswer
    requires { Checkable t.now book.now × Possible t.now book.now bits.now × (length listed.old ≡ book_size) }
    ensures { result ≡ table_answer none none (head? (breaks (table_of t.now))) }
{
    let count = table_book::count_of(book);
    for i in 0..count {
        let r = definition_breaks(t, book, bits, listed, i);
        let TableAnswer::Accepted = r else {
            return r;
        };
    }
    query_break(t, book)
}
