// Lines that change hands, and lines that end without effect.
ghost use Rattle.std.specs.Prelude.{◌≡◌, not, filter};
ghost use Rattle.rules.specs.Calls.{pass_on};
ghost use Rattle.rules.specs.Entries.{is_own_or_elder};
ghost use Rattle.tables.specs.Tables.{records_of};

use super::{Lines, close_up};
use crate::elders::Entries;
use rules::lines::Line;

impl<'a, P: Copy> Lines<'a, P> {
    /// What one entry holds passes to another, each line in its place.
    pub fn pass_on(&mut self, from: u16, to: u16)
        ensures { records_of self.new ≡ record (records_of self.old) { standing = pass_on from to (records_of self.old).standing } }
    {
        pass_on(&mut self.places[..self.filled], from, to);
    }

    /// Frees the lines of the entry and of every entry that has it as an elder.
    pub fn drop_inside(&mut self, entries: &Entries<'_>, entry: u16)
        ensures { records_of self.new ≡ record (records_of self.old) { standing = filter (λ line. not (is_own_or_elder entries.now.rows.now line.holder entry)) (records_of self.old).standing } }
    {
        let left = close_up(&mut self.places[..self.filled], |_, line| {
            !entries.is_own_or_elder(line.holder, entry)
        });
        self.filled = left;
    }
}

// A function of the slice: of this loop in the method itself the check finds no proof.
fn pass_on<P>(lines: &mut [Line<P>], from: u16, to: u16)
    ensures { lines.new ≡ pass_on from to lines.old }
{
    for line in lines {
        if line.holder == from {
            line.holder = to;
        }
    }
}
