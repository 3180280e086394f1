// Look-ups in the standing rows: who stands, under whom, and who is an elder of whom. Those that need no
// order are functions of any rows: the end of an entry asks `is_placed` of the rows that stay so far.
ghost use Rattle.std.specs.Prelude.{◌≡◌, true, ◌||◌, IsTrue, ◌↔◌, MatchOption, ◌==◌};
ghost use Rattle.rules.specs.Entries.{Elder, childless, elders, is_among, is_own_or_elder, parent_of, stands};
ghost use Rattle.tables.specs.Order.{are_in_order};
ghost use Rattle.tables.specs.Places.{HasItsRow, HasNoRow, unless_register};

use rules::rows::Row;

/// The place of the entry's row; none where it does not stand.
pub fn place_of(rows: &[Row], entry: u16) -> Option<usize>
    ensures { MatchOption result (HasNoRow rows.now entry) (HasItsRow rows.now entry) }
{
    rows.iter().position(|row| row.entry == entry)
}

/// Does the entry stand?
pub fn is_standing(rows: &[Row], entry: u16) -> bool
    ensures { result ≡ stands rows.now entry }
{
    place_of(rows, entry).is_some()
}

/// May an entry stand under this parent: is it the register itself, or an entry that stands?
// 0 is the register, as in a call.
pub fn is_placed(rows: &[Row], parent: u16) -> bool
    ensures { result ≡ (parent == 0 || stands rows.now parent) }
{
    parent == 0 || is_standing(rows, parent)
}

/// Has the entry no standing child?
pub fn is_childless(rows: &[Row], entry: u16) -> bool
    ensures { result ≡ childless rows.now entry }
{
    rows.iter().all(|row| row.parent != entry)
}

/// The entry that this one stands under; none for a top entry, and for one that does not stand.
pub fn parent_of(rows: &[Row], entry: u16) -> Option<u16>
    ensures { result ≡ unless_register (parent_of rows.now entry) }
{
    let parent = rows[place_of(rows, entry)?].parent;
    if parent == 0 { None } else { Some(parent) }
}

/// The standing entries, each after its parent, as they were begun.
#[derive(Clone, Copy)]
pub struct Entries<'a> {
    pub rows: &'a [Row],
    ghost in_order: { are_in_order rows.now ≡ true },
}

impl<'a> Entries<'a> {
    /// The entries of these rows.
    pub fn of(rows: &'a [Row]) -> Self
        requires { are_in_order rows.now ≡ true }
        ensures { result.rows.now ≡ rows.now }
    {
        Entries { rows }
    }

    /// Is `elder` an elder of the entry: its parent, where that is not 0, or an elder of its parent?
    pub fn is_elder(&self, elder: u16, entry: u16) -> bool
        ensures listed { result ≡ is_among (elders self.now.rows.now entry) elder }
        ensures related { IsTrue result ↔ Elder self.now.rows.now elder entry }
    {
        // An elder was begun before: most lines of other entries are told by this alone.
        if entry <= elder {
            return false;
        }
        match parent_of(self.rows, entry) {
            Some(parent) => parent == elder || self.is_elder(elder, parent),
            None => false,
        }
    }

    /// Is `holder` the entry itself or one of its elders?
    pub fn is_own_or_elder(&self, entry: u16, holder: u16) -> bool
        ensures { result ≡ is_own_or_elder self.now.rows.now entry holder }
    {
        holder == entry || self.is_elder(holder, entry)
    }
}
