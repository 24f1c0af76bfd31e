// The schema rules 13 to 15 at the arguments of one field and another's of the same names, by the rule's number: Err has the first place that
// breaks it; Ok: none does.
// Of the table nothing is asked but its sizes.
#![tactic(auto)]

ghost use Rattle.std.specs.Prelude.{◌≡◌, true};
ghost use Rattle.std.proofs.Math.Option.{none, some};
ghost use mathlib.Core.List.{head?};
ghost use Rattle.paper_table.specs.Lists.{all_of, find};
ghost use Rattle.paper_table.specs.Types.{argument_named};
ghost use Rattle.table_places.specs.Placed.{placed};
ghost use Rattle.table_fields.specs.Fields.{Bounds};
ghost use Rattle.table_members.specs.Members.{arguments_in, argument_from};
ghost use Rattle.table_types.specs.Sizes.{slim_argument};
ghost use Rattle.table_rules_13_15.specs.Asked.{failing, arguments_asked};

use paper::{WRAP_BASE, WRAP_NON_NULL};
use paper_table::{RULE_ARGUMENT_EXTRA, RULE_ARGUMENT_MISSING, RULE_ARGUMENT_TYPE};
use table_places::Place;

// Does the argument with this content break the rule, where the other field has none of its name?
fn is_alone_wrong(t: &[u8], rule: u32, start: usize, end: usize) -> bool
    requires { Bounds t.now start end }
    ensures { result ≡ failing rule (argument_from t.now start end) none }
{
    if rule == RULE_ARGUMENT_MISSING {
        return true;
    }
    if rule != RULE_ARGUMENT_EXTRA {
        return false;
    }
    let x = table_members::type_in(t, start, end);
    x.wrappers % WRAP_BASE == WRAP_NON_NULL
}

// Does it, where the other field's has the content from `from` up to `stop`?
fn is_beside_wrong(t: &[u8], rule: u32, start: usize, end: usize, from: usize, stop: usize) -> bool
    requires { Bounds t.now start end × Bounds t.now from stop × (slim_argument (argument_from t.now start end) ≡ true) × (slim_argument (argument_from t.now from stop) ≡ true) }
    ensures { result ≡ failing rule (argument_from t.now start end) (some (argument_from t.now from stop)) }
{
    if rule != RULE_ARGUMENT_TYPE {
        return false;
    }
    let x = table_members::type_in(t, start, end);
    let y = table_members::type_in(t, from, stop);
    if y.wrappers != x.wrappers {
        return true;
    }
    !table_book::is_text(t, y.at, y.size, t, x.at, x.size)
}

// Does it, where the other field's arguments stand from `from` up to `stop`?
fn is_wrong(t: &[u8], rule: u32, start: usize, end: usize, from: usize, stop: usize) -> bool
    requires { Bounds t.now start end × Bounds t.now from stop × (slim_argument (argument_from t.now start end) ≡ true) × (all_of slim_argument (arguments_in t.now from stop) ≡ true) }
    ensures { result ≡ failing rule (argument_from t.now start end) (find (argument_named (argument_from t.now start end).name) (arguments_in t.now from stop)) }
{
    let n = table_members::name_in(t, start, end);
    let Some(f) = table_members::find_argument(t, from, stop, t, n.at, n.size) else {
        return is_alone_wrong(t, rule, start, end);
    };
    is_beside_wrong(t, rule, start, end, f.start, f.end)
}

// The first of the arguments from `at` up to `end` that breaks the rule.
pub fn first_wrong(
    t: &[u8],
    rule: u32,
    at: usize,
    end: usize,
    from: usize,
    stop: usize,
    member: u32,
    part: u32,
) -> Result<(), Place>
    requires { Bounds t.now at end × Bounds t.now from stop × (all_of slim_argument (arguments_in t.now at end) ≡ true) × (all_of slim_argument (arguments_in t.now from stop) ≡ true) }
    ensures { result ≡ placed (head? (arguments_asked rule member part (arguments_in t.now at end) (arguments_in t.now from stop))) }
{
    let mut i = at;
    let mut a = 0;
    loop {
        let Some(f) = table_members::next_argument(t, i, end) else {
            return Ok(());
        };
        if is_wrong(t, rule, f.start, f.end, from, stop) {
            return Err(Place {
                member: member,
                part: part,
                argument: a,
            });
        }
        i = f.end;
        a += 1;
    }
}
