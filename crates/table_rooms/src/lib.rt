// The room that a holder's fields or a reference's wrappers have, and which wrapper is the first over it. Nothing is asked of the bytes.
#![tactic(auto)]

ghost use Rattle.std.specs.Prelude.{◌≡◌};
ghost use mathlib.Core.List.{head?};
ghost use Rattle.std.proofs.Math.Seq.{slice};
ghost use Rattle.paper.specs.Numbers.{most_wrappers};
ghost use Rattle.paper_table.specs.TableSizes.{wrappers_over};
ghost use Rattle.table_fields.specs.Fields.{Bounds};
ghost use Rattle.table_rooms.specs.Rooms.{told_over, wraps_by, room_for, rest_room};

use paper::MOST_WRAPPERS;
use paper_table::{
    MOST_ARGUMENTS, MOST_MEMBERS, TAG_ARGUMENT, TAG_FIELD, TAG_IMPLEMENTS, TAG_ROOTS,
    TAG_SUBSCRIPTION_ROOT,
};
use table_fields::{BYTE_BANG, BYTE_BRACKET_L};

// The wrappers that a byte of a reference's text is.
fn wraps(b: u8) -> u32
    ensures { result ≡ wraps_by b }
{
    if b == BYTE_BRACKET_L {
        return 1;
    }
    if b == BYTE_BANG {
        return 1;
    }
    0
}

// Err has the offset of the wrapper over the most, in a reference's text; Ok if there is none.
pub fn wrapper_over(t: &[u8], start: usize, end: usize) -> Result<(), u32>
    requires { Bounds t.now start end }
    ensures { result ≡ told_over (head? (wrappers_over most_wrappers start (slice start end t.now))) }
{
    let mut left = MOST_WRAPPERS;
    for i in start..end {
        let n = wraps(t[i]);
        if left < n {
            return Err(i as u32);
        }
        left -= n;
    }
    Ok(())
}

// Which of a holder's counts a field is of: 1 the names that a record implements, 2 a record's members or a field's arguments, 0 none.
pub fn room_of(holder: u8, k: u8) -> u32
    ensures { result ≡ room_for holder k }
{
    if holder <= TAG_ROOTS {
        if k == TAG_IMPLEMENTS {
            return 1;
        }
        if k < TAG_FIELD {
            return 0;
        }
        if k <= TAG_SUBSCRIPTION_ROOT {
            return 2;
        }
        return 0;
    }
    if holder != TAG_FIELD {
        return 0;
    }
    if k == TAG_ARGUMENT {
        return 2;
    }
    0
}

pub fn rest_room(holder: u8) -> u32
    ensures { result ≡ rest_room holder }
{
    if holder <= TAG_ROOTS {
        return MOST_MEMBERS;
    }
    MOST_ARGUMENTS
}
