// The committed values, one for each cell, over a slice that the host handed over.
ghost use Rattle.std.specs.Prelude.{◌≡◌, length, is_some, nat_lt};
ghost use Rattle.rules.specs.Calls.{commit, held_by};
ghost use Rattle.rules.specs.Cells.{store, value_at};
ghost use Rattle.rules.specs.States.{all_lawful};
ghost use Rattle.tables.specs.Tables.{cells_of};

use cells::kinds::Kind;
use rules::lines::Line;

/// The value at a place is that of the cell with this number.
// No model, see `Table`.
#[derive(Drop)]
pub struct Values<'a, V> {
    cells: &'a mut [V],
}

impl<'a, V: Copy> Values<'a, V> {
    /// The values that the slice has, left as they are.
    pub fn over(cells: &'a mut [V]) -> Self
        ensures { cells_of result ≡ record { values = cells.old; slice = cells.entry.ghost_name } }
    {
        Values { cells }
    }

    /// The value of a cell; none where there is no such cell.
    pub fn get(&self, cell: usize) -> Option<V>
        ensures value { result ≡ value_at (cells_of self.now).values cell }
        ensures there { is_some result ≡ nat_lt cell (length (cells_of self.now).values) }
    {
        self.cells.get(cell).copied()
    }

    /// Does the kind allow all of the values?
    pub fn are_lawful<K: Kind<Value = V>>(&self, kind: &K) -> bool
        ensures { result ≡ all_lawful (K.rules kind.now) (cells_of self.now).values }
    {
        self.cells.iter().all(|value| kind.is_lawful_value(*value))
    }

    /// Stores the value after the posting, where there is such a cell.
    pub fn store<K: Kind<Value = V>>(&mut self, kind: &K, cell: usize, posting: K::Posting)
        ensures { cells_of self.new ≡ record (cells_of self.old) { values = store (K.rules kind.now) (cells_of self.old).values cell posting } }
    {
        // By index: after a `get_mut` the check does not know the other cells.
        if cell < self.cells.len() {
            self.cells[cell] = kind.after(self.cells[cell], posting);
        }
    }

    /// Those of the lines that the entry holds change the values, in their order.
    pub fn commit<K: Kind<Value = V>>(&mut self, kind: &K, lines: &[Line<K::Posting>], entry: u16)
        ensures { cells_of self.new ≡ record (cells_of self.old) { values = commit (K.rules kind.now) (cells_of self.old).values (held_by entry lines.now) } }
    {
        for line in lines {
            if line.holder == entry {
                self.store(kind, line.cell, line.posting);
            }
        }
    }
}
