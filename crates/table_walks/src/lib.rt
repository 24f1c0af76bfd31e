// The first member, argument or implemented name of a record that breaks a schema rule; a member's arguments come before itself. Err has
// its place; Ok: there is none.
// Nothing is asked of the table but its sizes.
#![tactic(auto)]

ghost use Rattle.std.specs.Prelude.{◌≡◌, ◌+◌, ◌≤◌, ◌<◌, length};
ghost use mathlib.Core.List.{head?};
ghost use Rattle.paper_table.specs.TableNumbers.{most_table};
ghost use Rattle.paper_table.specs.Types.{table_of};
ghost use Rattle.table_places.specs.Placed.{placed};
ghost use Rattle.table_fields.specs.Fields.{Bounds};
ghost use Rattle.table_members.specs.Members.{members_in, implemented_in, member_from};
ghost use Rattle.table_types.specs.Booked.{Booked};
ghost use Rattle.table_walks.specs.Walks.{arguments_at, member_and_arguments_at, members_at, implemented_at};

use paper_table::{NO_PLACE, TAG_FIELD};
use table_places::Place;

// The first argument that breaks the rule, of the member with this tag and content, its number m.
fn arguments_place(
    t: &[u8],
    book: &[u32],
    rule: u32,
    m: u32,
    tag: u8,
    start: usize,
    end: usize,
) -> Result<(), Place>
    requires { Booked t.now book.now × Bounds t.now start end }
    ensures { result ≡ placed (head? (arguments_at rule (table_of t.now) m (member_from t.now tag start end))) }
{
    if tag != TAG_FIELD {
        return Ok(());
    }
    let mut i = start;
    let mut a = 0;
    loop {
        let Some(f) = table_members::next_argument(t, i, end) else {
            return Ok(());
        };
        if table_faults::is_argument_broken(t, book, rule, start, end, a, f.start, f.end) {
            return Err(Place {
                member: m,
                part: NO_PLACE,
                argument: a,
            });
        }
        i = f.end;
        a += 1;
    }
}

// The first place that breaks the rule, in the member with this tag and content, its number m, of the record from `from` up to `end`.
fn member_place(
    t: &[u8],
    book: &[u32],
    rule: u32,
    from: usize,
    end: usize,
    m: u32,
    tag: u8,
    start: usize,
    stop: usize,
) -> Result<(), Place>
    requires { Booked t.now book.now × Bounds t.now from end × Bounds t.now start stop }
    ensures { result ≡ placed (head? (member_and_arguments_at rule (table_of t.now) (members_in t.now from end) m (member_from t.now tag start stop))) }
{
    arguments_place(t, book, rule, m, tag, start, stop)?;
    if table_faults::is_member_broken(t, book, rule, from, end, m, tag, start, stop) {
        return Err(Place {
            member: m,
            part: NO_PLACE,
            argument: NO_PLACE,
        });
    }
    Ok(())
}

// The same of a record's members.
pub fn members_place(
    t: &[u8],
    book: &[u32],
    rule: u32,
    from: usize,
    end: usize,
) -> Result<(), Place>
    requires { Booked t.now book.now × Bounds t.now from end }
    ensures { result ≡ placed (head? (members_at rule (table_of t.now) (members_in t.now from end))) }
{
    let mut i = from;
    let mut m = 0;
    loop {
        let Some(f) = table_members::next_member(t, i, end) else {
            return Ok(());
        };
        member_place(t, book, rule, from, end, m, f.tag, f.start, f.end)?;
        i = f.end;
        m += 1;
    }
}

// The first implemented name that breaks the rule.
pub fn implemented_place(
    t: &[u8],
    book: &[u32],
    rule: u32,
    from: usize,
    end: usize,
) -> Result<(), Place>
    requires { Booked t.now book.now × Bounds t.now from end }
    ensures { result ≡ placed (head? (implemented_at rule (table_of t.now) (implemented_in t.now from end))) }
{
    let mut i = from;
    let mut m = 0;
    loop {
        let Some(f) = table_members::next_implemented(t, i, end) else {
            return Ok(());
        };
        if table_bases::is_implemented_broken(t, book, rule, from, end, m, f.start, f.end) {
            return Err(Place {
                member: m,
                part: NO_PLACE,
                argument: NO_PLACE,
            });
        }
        i = f.end;
        m += 1;
    }
}
