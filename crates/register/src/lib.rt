// The register: nested entries over three tables that the host hands over, and the calls on them.
#![tactic(auto)]

ghost use Rattle.std.specs.Prelude.{◌≡◌, true};
ghost use Rattle.tables.specs.Order.{are_in_order, numbered_to};
ghost use Rattle.tables.specs.Tables.{records_of};

use tables::records::{Lines, Rows};
use tables::values::Values;

mod calls;
mod effects;
mod questions;
mod setting_up;

/// A register over cells with values `V` and postings `P`. It holds the tables, and not the kind of
/// cell: that is lent to each call.
// No `Register<'a, K>`, which would say the bound on the kind once: a register would then take one kind
// where it takes any with these values and postings.
#[derive(Drop)]
pub struct Register<'a, V, P> {
    values: Values<'a, V>,
    rows: Rows<'a>,
    lines: Lines<'a, P>,
    /// How many begins have been taken; the last of them got this number.
    begun: u16,
    /// Were the tables within their sizes at set-up, and all first values lawful?
    // A flag and no `Option` of the rest: an unsound register keeps its tables, and promises speak of them.
    sound: bool,
    ghost in_order: { are_in_order (records_of rows).standing ≡ true },
    ghost numbered: { numbered_to begun (records_of rows).standing ≡ true },
}
