// The questions that the calls are asked before they do anything, each call's in their order.
ghost use Rattle.std.specs.Prelude.{◌≡◌, ◌||◌, [], ◌∷◌, length, ◌==◌, nat_lt};
ghost use Rattle.rules.specs.declared.calls.Call.TheVariants.{Post, Publish};
ghost use Rattle.rules.specs.declared.refusals.Refusal.TheVariants.{HasChild, NoFreeRow, NoNumberLeft, NoSuchCell, NotStanding, Unsound};
ghost use Rattle.rules.specs.Calls.{ask, first_no, questions, seen};
ghost use Rattle.rules.specs.Cells.{value_at};
ghost use Rattle.rules.specs.Entries.{childless, stands};
ghost use Rattle.register.specs.Questions.{passed, seen_unless};
ghost use Rattle.register.specs.Views.{view};

use crate::Register;
use cells::kinds::Kind;
use rules::lines::Line;
use rules::refusals::Refusal;
use tables::elders::{self, Entries};
use tables::searches::Search;

/// The last number that an entry can get.
const LAST_NUMBER: u16 = 65_535;

/// A question: yes, or no with the refusal that says so.
fn ask(yes: bool, refusal: Refusal) -> Result<(), Refusal>
    ensures { result ≡ passed (ask yes refusal ∷ []) }
{
    if yes { Ok(()) } else { Err(refusal) }
}

// The bound on the kind stands at each call, see `Register`.
impl<'a, V: Copy, P: Copy> Register<'a, V, P> {
    /// Questions 1, 2, 8 and 10: may an entry be begun under the parent?
    // 0 is the register, as in `begin`.
    pub(crate) fn may_begin(&self, parent: u16) -> Result<(), Refusal>
        ensures { result ≡ passed (ask (view self.now).sound Unsound ∷ ask (parent == 0 || stands (view self.now).rows parent) NotStanding ∷ ask (nat_lt (length (view self.now).rows) (view self.now).row_room) NoFreeRow ∷ ask (nat_lt (view self.now).begun 65535) NoNumberLeft ∷ []) }
    {
        ask(self.sound, Refusal::Unsound)?;
        ask(
            elders::is_placed(self.rows.as_slice(), parent),
            Refusal::NotStanding,
        )?;
        ask(!self.rows.is_full(), Refusal::NoFreeRow)?;
        ask(self.begun < LAST_NUMBER, Refusal::NoNumberLeft)
    }

    /// Questions 1 and 2: does the entry stand?
    pub(crate) fn stands(&self, entry: u16) -> Result<(), Refusal>
        ensures { result ≡ passed (ask (view self.now).sound Unsound ∷ ask (stands (view self.now).rows entry) NotStanding ∷ []) }
    {
        ask(self.sound, Refusal::Unsound)?;
        ask(
            elders::is_standing(self.rows.as_slice(), entry),
            Refusal::NotStanding,
        )
    }

    /// Questions 1, 2 and 3: does the entry stand, and has it no standing child?
    pub(crate) fn stands_alone(&self, entry: u16) -> Result<(), Refusal>
        ensures { result ≡ passed (ask (view self.now).sound Unsound ∷ ask (stands (view self.now).rows entry) NotStanding ∷ ask (childless (view self.now).rows entry) HasChild ∷ []) }
    {
        self.stands(entry)?;
        ask(
            elders::is_childless(self.rows.as_slice(), entry),
            Refusal::HasChild,
        )
    }

    /// Questions 1 to 6 and 9: what the posting sees, if it may be made.
    pub(crate) fn may_post<K: Kind<Value = V, Posting = P>>(
        &self,
        kind: &K,
        line: &Line<P>,
    ) -> Result<V, Refusal>
        ensures { result ≡ seen_unless (seen (K.rules kind.now) (view self.now) line.now.holder line.now.cell) (first_no (questions (K.rules kind.now) (view self.now) (Post line.now.holder line.now.cell line.now.posting))) }
    {
        self.stands_alone(line.holder)?;
        let committed = self.values.get(line.cell).ok_or(Refusal::NoSuchCell)?;
        ask(
            kind.is_lawful_posting(line.posting),
            Refusal::UnlawfulPosting,
        )?;
        let seen = self.search(kind).meet(line, committed)?;
        ask(!self.lines.is_full(), Refusal::NoFreeLine)?;
        Ok(seen)
    }

    /// Questions 1, 2, 3 and 7: may the entry be published?
    pub(crate) fn may_publish<K: Kind<Value = V, Posting = P>>(
        &self,
        kind: &K,
        entry: u16,
    ) -> Result<(), Refusal>
        ensures { result ≡ passed (questions (K.rules kind.now) (view self.now) (Publish entry)) }
    {
        self.stands_alone(entry)?;
        match self.search(kind).elder_in_the_way(entry) {
            Some(holder) => Err(Refusal::HeldByElder { holder }),
            None => Ok(()),
        }
    }

    /// Questions 1 and 4: the committed value, if it may be shown.
    pub(crate) fn may_show(&self, cell: usize) -> Result<V, Refusal>
        ensures { result ≡ seen_unless (value_at (view self.now).values cell) (first_no (ask (view self.now).sound Unsound ∷ ask (nat_lt cell (length (view self.now).values)) NoSuchCell ∷ [])) }
    {
        ask(self.sound, Refusal::Unsound)?;
        self.values.get(cell).ok_or(Refusal::NoSuchCell)
    }

    /// What questions 6 and 7 look through.
    fn search<'s, K: Kind<Value = V, Posting = P>>(&'s self, kind: &'s K) -> Search<'s, K>
        ensures kind { result.kind.now ≡ kind.now }
        ensures entries { result.entries.rows.now ≡ (view self.now).rows }
        ensures lines { result.lines.now ≡ (view self.now).lines }
    {
        Search {
            kind,
            entries: Entries::of(self.rows.as_slice()),
            lines: self.lines.as_slice(),
        }
    }
}
