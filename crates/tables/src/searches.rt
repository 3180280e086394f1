// The way through the standing lines, first posted to last posted.
ghost use Rattle.std.specs.Prelude.{◌≡◌};
ghost use Rattle.rules.specs.Calls.{changed_by_own, earliest_holder, holds_uncrossed, stops_posting_in, stops_publishing_in};
ghost use Rattle.tables.specs.Searches.{met};

use crate::elders::Entries;
use cells::kinds::Kind;
use rules::lines::Line;
use rules::refusals::Refusal;

/// What a call looks through: the lines, and the entries that hold them, by a kind's rules.
#[derive(Drop)]
pub struct Search<'a, K: Kind> {
    pub kind: &'a K,
    pub entries: Entries<'a>,
    pub lines: &'a [Line<K::Posting>],
}

impl<'a, K: Kind> Search<'a, K> {
    /// What a posting meets on its cell: the value that its entry sees there, or the refusal that names
    /// the holder of the earliest line in the way which the posting does not cross. `wanted` is the line
    /// that it would add.
    pub fn meet(&self, wanted: &Line<K::Posting>, committed: K::Value) -> Result<K::Value, Refusal>
        ensures { result ≡ met (changed_by_own (K.rules self.now.kind.now) self.now.entries.rows.now wanted.now.holder wanted.now.cell committed self.now.lines.now) (earliest_holder (stops_posting_in (K.rules self.now.kind.now) self.now.entries.rows.now wanted.now.holder wanted.now.cell wanted.now.posting) self.now.lines.now) }
    {
        // One pass, where a search and a fold would ask the elder test twice. The holder is named by
        // index: that is the form of this loop (docs/DECISIONS.md, Forms of code).
        let mut seen = committed;
        for (place, line) in self.lines.iter().enumerate() {
            if line.cell == wanted.cell {
                if self.entries.is_own_or_elder(wanted.holder, line.holder) {
                    seen = self.kind.after(seen, line.posting);
                } else if !self.kind.crosses(wanted.posting, line.posting) {
                    return Err(Refusal::InTheWay {
                        holder: self.lines[place].holder,
                    });
                }
            }
        }
        Ok(seen)
    }

    /// The holder of the earliest line of an elder that some line of the entry on the same cell does not
    /// cross.
    pub fn elder_in_the_way(&self, entry: u16) -> Option<u16>
        ensures { result ≡ earliest_holder (stops_publishing_in (K.rules self.now.kind.now) self.now.entries.rows.now self.now.lines.now entry) self.now.lines.now }
    {
        // By index, as in `meet`.
        let place = self.lines.iter().position(|line| {
            self.entries.is_elder(line.holder, entry) && self.holds_uncrossed(entry, line)
        })?;
        Some(self.lines[place].holder)
    }

    /// Does the entry hold a line on the cell of the other line that does not cross it?
    fn holds_uncrossed(&self, entry: u16, other: &Line<K::Posting>) -> bool
        ensures { result ≡ holds_uncrossed (K.rules self.now.kind.now) self.now.lines.now entry other.now }
    {
        self.lines.iter().any(|line| {
            line.holder == entry
                && line.cell == other.cell
                && !self.kind.crosses(line.posting, other.posting)
        })
    }
}
