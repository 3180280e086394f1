// The end of an entry with all that stand inside it.
ghost use Rattle.std.specs.Prelude.{◌≡◌, true};
ghost use Rattle.rules.specs.Entries.{outside};
ghost use Rattle.tables.specs.Order.{are_in_order};
ghost use Rattle.tables.specs.Tables.{records_of};

use super::{Rows, close_up};
use crate::elders;

impl<'a> Rows<'a> {
    /// Frees the rows of the entry and of every entry that has it as an elder.
    ///
    /// Parents stand before their children, so a row stays just where its entry is another and its
    /// parent is the register itself or stayed.
    pub fn end_inside(&mut self, entry: u16)
        requires { are_in_order (records_of self.old).standing ≡ true }
        ensures { records_of self.new ≡ record (records_of self.old) { standing = outside entry (records_of self.old).standing } }
    {
        let left = close_up(&mut self.places[..self.filled], |stayed, row| {
            row.entry != entry && elders::is_placed(stayed, row.parent)
        });
        self.filled = left;
    }
}
