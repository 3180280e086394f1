// What whoever lends a slice knows of it when the values or the table over it are gone.
ghost use Rattle.std.specs.Prelude.{◌≡◌, ◌<◌, ◌∷◌, [], length, take};
ghost use Rattle.rules.specs.Cells.{store};

use crate::records::Table;
use crate::values::Values;
use cells::kinds::Kind;

/// Makes one posting on a cell of the slice, where there is such a cell.
pub fn store_in<K: Kind>(kind: &K, cells: &mut [K::Value], cell: usize, posting: K::Posting)
    ensures { cells.new ≡ store (K.rules kind.now) cells.old cell posting }
{
    let mut values = Values::over(cells);
    values.store(kind, cell, posting);
}

/// Puts a record into the first place of the slice, where there is one.
pub fn put_first<T: Copy>(places: &mut [T], first: T)
    ensures { 0 < length places.old → take 1 places.new ≡ first ∷ [] }
{
    let mut table = Table::over(places);
    if !table.is_full() {
        table.push(first);
    }
}
