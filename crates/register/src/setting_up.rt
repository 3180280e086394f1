// Setting up a register over tables of the host's.
ghost use Rattle.std.specs.Prelude.{◌≡◌, ◌&&◌, [], length};
ghost use Rattle.rules.specs.States.{set_up, size_within};
ghost use Rattle.register.specs.Promises.{LedTo};
ghost use Rattle.register.specs.Views.{IsOver, view};

use crate::Register;
use cells::kinds::Kind;
use rules::lines::Line;
use rules::rows::Row;
use tables::records::Table;
use tables::values::Values;

const MOST_CELLS: usize = 4096;

const MOST_ROWS: usize = 256;

const MOST_LINES: usize = 4096;

// The bound on the kind stands at each call, see `Register`.
impl<'a, V: Copy, P: Copy> Register<'a, V, P> {
    /// A register over the host's tables. All rows and lines are free, and the values stay as they are.
    /// It never refuses: where a table is out of its size or a first value is unlawful, the register
    /// turns every call away.
    pub fn set_up<K: Kind<Value = V, Posting = P>>(
        kind: &K,
        values: &'a mut [V],
        rows: &'a mut [Row],
        lines: &'a mut [Line<P>],
    ) -> Self
        ensures state { view result ≡ set_up (K.rules kind.now) values.old (length rows.old) (length lines.old) }
        ensures law { LedTo (K.rules kind.now) values.old (length rows.old) (length lines.old) [] (view result) }
        ensures tables { IsOver result values.entry.ghost_name rows.entry.ghost_name lines.entry.ghost_name }
    {
        let sizes_fit = is_within(values.len(), MOST_CELLS)
            && is_within(rows.len(), MOST_ROWS)
            && is_within(lines.len(), MOST_LINES);
        let values = Values::over(values);
        let sound = sizes_fit && values.are_lawful(kind);
        Register {
            values,
            rows: Table::over(rows),
            lines: Table::over(lines),
            begun: 0,
            sound,
        }
    }
}

/// Has a table at least one place, and not too many?
fn is_within(size: usize, most: usize) -> bool
    ensures { result ≡ size_within size most }
{
    0 < size && size <= most
}
