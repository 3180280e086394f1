// A table of records over a slice that the host handed over. Rows and lines stand in such tables.
ghost use Rattle.std.specs.Prelude.{◌≡◌, ℕ, ◌<◌, ◌≤◌, false, [], ◌∷◌, ◌++◌, length, take, filter, ◌==◌, not, nat_le};
ghost use Rattle.tables.specs.Closing.{IsClosedUp};

use rules::lines::Line;
use rules::rows::Row;

mod lines;
mod rows;

/// The records that stand fill the first places, in the order in which they came; the places after
/// them are free.
// A slice and a count, where a `Vec` would do: the host hands the memory over, and there is no heap. No
// model: with one, whoever lent the slice would not know what it holds when the table is gone.
#[derive(Drop)]
pub struct Table<'a, T> {
    places: &'a mut [T],
    filled: usize,
    ghost within: { filled ≤ length places.now },
}

/// The standing entries, first begun to last begun.
pub type Rows<'a> = Table<'a, Row>;

/// The standing lines of any kind's postings, first posted to last posted.
pub type Lines<'a, P> = Table<'a, Line<P>>;

/// A record that belongs to an entry: a row to the entry that it is of, a line to its holder.
pub trait Owned {
    ghost whose: { Self → ℕ };

    /// The number of the entry.
    fn owner(&self) -> u16
        ensures { result ≡ whose self.now };
}

impl Owned for Row {
    ghost whose = { λ row. row.entry };

    fn owner(&self) -> u16 {
        self.entry
    }
}

impl<P> Owned for Line<P> {
    ghost whose = { λ line. line.holder };

    fn owner(&self) -> u16 {
        self.holder
    }
}

impl<'a, T: Copy> Table<'a, T> {
    ghost use Rattle.tables.specs.Tables.{records_of};

    /// A table over the slice, with all of its places free.
    pub fn over(places: &'a mut [T]) -> Self
        ensures { records_of result ≡ record { standing = []; room = length places.old; slice = places.entry.ghost_name } }
    {
        Table { places, filled: 0 }
    }

    /// The records that stand, in the order in which they came.
    pub fn as_slice(&self) -> &[T]
        ensures { result.now ≡ (records_of self.now).standing }
    {
        &self.places[..self.filled]
    }

    /// Is no place free?
    pub fn is_full(&self) -> bool
        ensures full { result ≡ nat_le (records_of self.now).room (length (records_of self.now).standing) }
        ensures free { result ≡ false → length (records_of self.now).standing < (records_of self.now).room }
    {
        self.places.len() <= self.filled
    }

    /// Fills the next free place, of which there has to be one.
    pub fn push(&mut self, added: T)
        requires { length (records_of self.old).standing < (records_of self.old).room }
        ensures { records_of self.new ≡ record (records_of self.old) { standing = (records_of self.old).standing ++ added ∷ [] } }
    {
        self.places[self.filled] = added;
        self.filled += 1;
    }
}

impl<'a, T: Copy + Owned> Table<'a, T> {
    ghost use Rattle.tables.specs.Tables.{records_of};

    /// Frees the places of one entry's records; the others close up and stay in their order.
    pub fn end(&mut self, entry: u16)
        ensures { records_of self.new ≡ record (records_of self.old) { standing = filter (λ t. not (T.whose t == entry)) (records_of self.old).standing } }
    {
        let left = close_up(
            &mut self.places[..self.filled],
            |_, item| item.owner() != entry,
        );
        self.filled = left;
    }
}

/// Moves the items that stay to the front, in their order, and counts them. Whether an item stays is
/// asked with those before it that stay.
fn close_up<T: Copy, F: Fn(&[T], &T) -> bool>(items: &mut [T], stays: F) -> usize
    requires { F.IsAlwaysCallable stays }
    ensures closed { IsClosedUp F.Fn stays items.old (take result items.new) }
    ensures bound { result ≤ length items.old }
    ensures size { length items.new ≡ length items.old }
{
    // By index: one cursor reads and the other writes, and a `for` over the items would lend them all.
    let mut kept = 0;
    for i in 0..items.len() {
        let item = items[i];
        if stays(&items[..kept], &item) {
            items[kept] = item;
            kept += 1;
        }
    }
    kept
}
