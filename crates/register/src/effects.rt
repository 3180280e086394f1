// What the calls do once no question turns them away.
ghost use Rattle.std.specs.Prelude.{◌≡◌, ◌+◌, ◌<◌, true, ◌||◌, length, ◌==◌};
ghost use Rattle.rules.specs.Calls.{abandoned_state, begun_state, committed_state, passed_state, posted_state};
ghost use Rattle.rules.specs.Entries.{childless, stands};
ghost use Rattle.register.specs.Views.{SameTables, view};

use crate::Register;
use cells::kinds::Kind;
use rules::lines::Line;
use rules::rows::Row;
use tables::elders::Entries;

// `SameTables` is a clause and no invariant: it speaks of the register before and after. The bound on the
// kind stands at each call, see `Register`.
impl<'a, V: Copy, P: Copy> Register<'a, V, P> {
    /// The next number stands under the parent.
    // 0 is the register, as in `begin`.
    pub(crate) fn enter(&mut self, parent: u16) -> u16
        requires placed { (parent == 0 || stands (view self.old).rows parent) ≡ true }
        requires row { length (view self.old).rows < (view self.old).row_room }
        requires number { (view self.old).begun < 65535 }
        ensures number { result ≡ (view self.old).begun + 1 }
        ensures state { view self.new ≡ begun_state (view self.old) parent }
        ensures tables { SameTables self.new self.old }
    {
        let entry = self.begun + 1;
        self.rows.push(Row { entry, parent });
        self.begun = entry;
        entry
    }

    /// A line is added after all others.
    pub(crate) fn add_line(&mut self, line: Line<P>)
        requires { length (view self.old).lines < (view self.old).line_room }
        ensures state { view self.new ≡ posted_state (view self.old) line.holder line.cell line.posting }
        ensures tables { SameTables self.new self.old }
    {
        self.lines.push(line);
    }

    /// The entry ends; its lines change the committed values in posting order, and end.
    pub(crate) fn commit<K: Kind<Value = V, Posting = P>>(&mut self, kind: &K, entry: u16)
        requires { childless (view self.old).rows entry ≡ true }
        ensures state { view self.new ≡ committed_state (K.rules kind.now) (view self.old) entry }
        ensures tables { SameTables self.new self.old }
    {
        // By a name: the checker does not cover a slice lent from one field in the step that changes another.
        let lines = &self.lines;
        self.values.commit(kind, lines.as_slice(), entry);
        self.lines.end(entry);
        self.rows.end(entry);
    }

    /// The entry ends; its lines stay in their places, and its parent holds them.
    pub(crate) fn pass_on(&mut self, entry: u16, parent: u16)
        requires { childless (view self.old).rows entry ≡ true }
        ensures state { view self.new ≡ passed_state (view self.old) entry parent }
        ensures tables { SameTables self.new self.old }
    {
        self.lines.pass_on(entry, parent);
        self.rows.end(entry);
    }

    /// The entry ends with every entry that has it as an elder, and their lines end without effect.
    pub(crate) fn drop_inside(&mut self, entry: u16)
        ensures state { view self.new ≡ abandoned_state (view self.old) entry }
        ensures tables { SameTables self.new self.old }
    {
        // The lines first: the rows tell whose elder the entry is. By a name, as in `commit`.
        let rows = &self.rows;
        self.lines.drop_inside(&Entries::of(rows.as_slice()), entry);
        self.rows.end_inside(entry);
    }
}
