// The calls on a register. Each promises `Promised`, which is the whole of it: the answer, every value,
// row and line after the call, the question that turned it away, and the law of the fair copy over every
// history with the call added.
ghost use Rattle.std.specs.Prelude.{◌≡◌};
ghost use Rattle.rules.specs.declared.calls.Call.TheVariants.{Abandon, Begin, Keep, Post, Publish};
ghost use Rattle.rules.specs.declared.calls.Call.TheVariants as calls;
ghost use Rattle.rules.specs.declared.calls.Reply.TheVariants.{Done, Entry, Posted};
ghost use Rattle.rules.specs.declared.calls.Reply.TheVariants as replies;
ghost use Rattle.register.specs.Promises.{FairCopyStands, Promised};
ghost use Rattle.register.specs.Views.{SameTables, answered, view};

use crate::Register;
use cells::kinds::Kind;
use rules::calls::{Call, Reply};
use rules::lines::Line;
use rules::refusals::Refusal;
use tables::elders;

// `SameTables` is a clause and no invariant: it speaks of the register before and after. The bound on the
// kind stands at each call, see `Register`.
impl<'a, V: Copy, P: Copy> Register<'a, V, P> {
    /// Begins an entry under the parent, or under the register itself where that is 0. The answer is
    /// the new entry's number.
    ///
    /// The kind is asked nothing: it says which rules the history went by.
    // 0 and no `Option`: it is the number that a script names.
    pub fn begin<K: Kind<Value = V, Posting = P>>(
        &mut self,
        kind: &K,
        parent: u16,
    ) -> Result<u16, Refusal>
        ensures promised { Promised (K.rules kind.now) (view self.old) (Begin parent) (answered Entry result) (view self.new) }
        ensures tables { SameTables self.new self.old }
    {
        self.may_begin(parent)?;
        Ok(self.enter(parent))
    }

    /// Makes a posting on a cell, inside an entry. The answer is the kind's at the value that the entry
    /// sees there; the committed value stays until the entry, or one that it passes its lines to, is
    /// kept at the top or published.
    pub fn post<K: Kind<Value = V, Posting = P>>(
        &mut self,
        kind: &K,
        entry: u16,
        cell: usize,
        posting: P,
    ) -> Result<K::Answer, Refusal>
        ensures promised { Promised (K.rules kind.now) (view self.old) (Post entry cell posting) (answered Posted result) (view self.new) }
        ensures tables { SameTables self.new self.old }
    {
        let line = Line {
            holder: entry,
            cell,
            posting,
        };
        let seen = self.may_post(kind, &line)?;
        self.add_line(line);
        Ok(kind.answer(seen, posting))
    }

    /// Ends an entry. An inner entry's lines pass to its parent; a top entry's change the committed
    /// values.
    pub fn keep<K: Kind<Value = V, Posting = P>>(
        &mut self,
        kind: &K,
        entry: u16,
    ) -> Result<(), Refusal>
        ensures promised { Promised (K.rules kind.now) (view self.old) (Keep entry) (answered (λ _. Done) result) (view self.new) }
        ensures tables { SameTables self.new self.old }
    {
        self.stands_alone(entry)?;
        match elders::parent_of(self.rows.as_slice(), entry) {
            Some(parent) => self.pass_on(entry, parent),
            None => self.commit(kind, entry),
        }
        Ok(())
    }

    /// Ends an entry, top or inner, and its lines change the committed values.
    pub fn publish<K: Kind<Value = V, Posting = P>>(
        &mut self,
        kind: &K,
        entry: u16,
    ) -> Result<(), Refusal>
        ensures promised { Promised (K.rules kind.now) (view self.old) (Publish entry) (answered (λ _. Done) result) (view self.new) }
        ensures tables { SameTables self.new self.old }
    {
        self.may_publish(kind, entry)?;
        self.commit(kind, entry);
        Ok(())
    }

    /// Ends an entry with every entry inside it, and drops their lines. What was published from inside
    /// stays.
    ///
    /// The kind is asked nothing: it says which rules the history went by.
    pub fn abandon<K: Kind<Value = V, Posting = P>>(
        &mut self,
        kind: &K,
        entry: u16,
    ) -> Result<(), Refusal>
        ensures promised { Promised (K.rules kind.now) (view self.old) (Abandon entry) (answered (λ _. Done) result) (view self.new) }
        ensures tables { SameTables self.new self.old }
    {
        self.stands(entry)?;
        self.drop_inside(entry);
        Ok(())
    }

    /// The committed value of a cell.
    ///
    /// The kind is asked nothing: it says which rules the history went by.
    pub fn value<K: Kind<Value = V, Posting = P>>(
        &self,
        kind: &K,
        cell: usize,
    ) -> Result<V, Refusal>
        ensures { Promised (K.rules kind.now) (view self.now) (calls.Value cell) (answered replies.Value result) (view self.now) }
    {
        self.may_show(cell)
    }

    /// Makes a call, whichever it is.
    pub fn perform<K: Kind<Value = V, Posting = P>>(
        &mut self,
        kind: &K,
        call: Call<P>,
    ) -> Result<Reply<V, K::Answer>, Refusal>
        ensures promised { Promised (K.rules kind.now) (view self.old) call result (view self.new) }
        ensures tables { SameTables self.new self.old }
    {
        match call {
            Call::Begin { parent } => Ok(Reply::Entry(self.begin(kind, parent)?)),
            Call::Post {
                entry,
                cell,
                posting,
            } => Ok(Reply::Posted(self.post(kind, entry, cell, posting)?)),
            Call::Keep { entry } => done(self.keep(kind, entry)),
            Call::Publish { entry } => done(self.publish(kind, entry)),
            Call::Abandon { entry } => done(self.abandon(kind, entry)),
            Call::Value { cell } => Ok(Reply::Value(self.value(kind, cell)?)),
        }
    }

    /// The fair-copy law of the register as it stands: whatever history led here from set-up, its fair
    /// copy holds.
    pub fn fair_copy_law<K: Kind<Value = V, Posting = P>>(&self, kind: &K)
        ensures { FairCopyStands (K.rules kind.now) (view self.now) }
    {}
}

/// The reply to a call that ended an entry.
// The checker does not cover a `map` of the result by what makes a reply.
fn done<V, O>(ended: Result<(), Refusal>) -> Result<Reply<V, O>, Refusal>
    ensures { result ≡ answered (λ _. Done) ended }
{
    ended?;
    Ok(Reply::Done)
}
