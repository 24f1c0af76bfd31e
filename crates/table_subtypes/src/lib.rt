// The sub-type test on packed wrappers: whether one type reference is a sub-type of another, given what is known of their base names.
#![tactic(auto)]

ghost use Rattle.std.specs.Prelude.{◌≡◌, ◌&&◌, eqb};
ghost use Rattle.table_subtypes.specs.SubAnswers.{SubAnswer};

use paper::{WRAP_BASE, WRAP_LIST, WRAP_NON_NULL};

// Are two references equal, given that their base names are the same or not?
fn equal_refs(alike: bool, o: u32, i: u32) -> bool
    ensures { result ≡ alike && eqb o i }
{
    if alike {
        return o == i;
    }
    false
}

// Sub-type, by the wrappers o and i, from outside in, lowest two bits first, 1 list, 2 Non-Null.
// alike: the base names are the same; can: the first is an object that the second can be.
pub fn sub_type(alike: bool, can: bool, o: u32, i: u32) -> bool
    ensures { SubAnswer alike can o i result }
{
    if equal_refs(alike, o, i) {
        return true;
    }
    if o == 0 {
        if i == 0 {
            return can;
        }
        return false;
    }
    if o % WRAP_BASE == WRAP_NON_NULL {
        return sub_type(alike, can, o / WRAP_BASE, i);
    }
    if i % WRAP_BASE == WRAP_LIST {
        return sub_type(alike, can, o / WRAP_BASE, i / WRAP_BASE);
    }
    false
}
