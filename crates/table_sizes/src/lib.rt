// Which of a table's fields, or of its references' wrappers, is the first over a size. Nothing is asked of the bytes.
#![tactic(auto)]

ghost use Rattle.std.specs.Prelude.{◌≡◌, ◌||◌, ◌+◌, ◌≤◌, length, eqb};
ghost use mathlib.Core.List.{head?};
ghost use Rattle.std.proofs.Math.Seq.{slice};
ghost use Rattle.paper_table.specs.TableNumbers.{most_table, tag_name};
ghost use Rattle.paper_table.specs.TableSizes.{overs, counts_offset};
ghost use Rattle.table_fields.specs.Fields.{Bounds};
ghost use Rattle.table_rooms.specs.Rooms.{told_over};
ghost use Rattle.table_sizes.specs.Counts.{leaf_overs, record_by};

use paper_table::{MOST_IMPLEMENTED, MOST_RECORDS, TAG_NAME, TAG_ROOTS, TAG_SCALAR};
use table_fields::read_field;
use table_framing::{Holding, MOST_DEEP, content_of};
use table_rooms::{rest_room, room_of, wrapper_over};

// What is over in a content that is no fields: Err has the offset of the first.
fn leaf_over(t: &[u8], start: usize, end: usize, h: Holding) -> Result<(), u32>
    requires { Bounds t.now start end }
    ensures { result ≡ told_over (head? (leaf_overs h start (slice start end t.now))) }
{
    match h {
        Holding::Name => Ok(()),
        Holding::Reference => wrapper_over(t, start, end),
        Holding::Fields {
            first: _,
            second: _,
            from: _,
            to: _,
        } => Ok(()),
        Holding::Nothing => Ok(()),
    }
}

// Is nothing counted in a field of this tag, fields being so deep in it at most? Most fields are names.
fn is_plain(tag: u8, depth: u32) -> bool
    ensures { result ≡ eqb tag tag_name || eqb depth 0 }
{
    if tag == TAG_NAME {
        return true;
    }
    depth == 0
}

// The field whose tag stands at `at` and whose content ends at `end`; fields stand in it `depth` deep at most. Err has the offset of its first over a size.
fn first_over(t: &[u8], at: usize, tag: u8, end: usize, depth: u32) -> Result<(), u32>
    requires { Bounds t.now (at + 3) end }
    ensures { result ≡ told_over (head? (overs depth at tag (slice (at + 3) end t.now))) }
{
    if is_plain(tag, depth) {
        return Ok(());
    }
    let h = content_of(tag);
    let Holding::Fields {
        first: _,
        second: _,
        from: _,
        to: _,
    } = h
    else {
        return leaf_over(t, at + 3, end, h);
    };
    let mut names = MOST_IMPLEMENTED;
    let mut rest = rest_room(tag);
    let mut i = at + 3;
    while i < end {
        let Some(f) = read_field(t, i, end) else {
            return Ok(());
        };
        let n = room_of(tag, f.tag);
        if names < n % 2 {
            return Err(i as u32);
        }
        if rest < n / 2 {
            return Err(i as u32);
        }
        first_over(t, i, f.tag, f.end, depth - 1)?;
        names -= n % 2;
        rest -= n / 2;
        i = f.end;
    }
    Ok(())
}

fn is_record(k: u8) -> u32
    ensures { result ≡ record_by k }
{
    if k < TAG_SCALAR {
        return 0;
    }
    if k <= TAG_ROOTS {
        return 1;
    }
    0
}

// Refusal 8: Err has the offset of the first over a size.
pub fn over(t: &[u8]) -> Result<(), u32>
    requires { length t.now ≤ most_table }
    ensures { result ≡ told_over (counts_offset t.now) }
{
    let mut left = MOST_RECORDS;
    let mut i = 0;
    while i < t.len() {
        let Some(f) = read_field(t, i, t.len()) else {
            return Ok(());
        };
        let n = is_record(f.tag);
        if left < n {
            return Err(i as u32);
        }
        first_over(t, i, f.tag, f.end, MOST_DEEP)?;
        left -= n;
        i = f.end;
    }
    Ok(())
}
