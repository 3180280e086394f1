// Postings made one after another on a cell of any kind.
ghost use Rattle.std.specs.Prelude.{◌≡◌, ◌↔◌, IsTrue};
ghost use Rattle.cells.specs.Sequences.{CrossesEach, StandsAnywhere, answer_to, value_left};

use crate::kinds::Kind;

/// Makes one posting on a value: stores the value that it leaves, and gives its answer. A posting
/// that the kind does not allow gets no answer and stores nothing.
pub fn post<K: Kind>(kind: &K, value: &mut K::Value, posting: K::Posting) -> Option<K::Answer>
    ensures answer { result ≡ answer_to (K.rules kind.now) value.old posting }
    ensures stored { value.new ≡ value_left (K.rules kind.now) value.old posting }
    ensures lawful { IsTrue ((K.rules kind.now).value_lawful value.old)
        → IsTrue ((K.rules kind.now).value_lawful value.new) }
{
    if !kind.is_lawful_posting(posting) {
        return None;
    }
    let found = *value;
    *value = kind.after(found, posting);
    Some(kind.answer(found, posting))
}

/// Does the posting cross each of the others? Where it does, its place among them makes no
/// difference, to its own answer, to theirs, or to the value that all of them leave.
pub fn crosses_each<K: Kind>(kind: &K, posting: K::Posting, others: &[K::Posting]) -> bool
    ensures each { IsTrue result ↔ CrossesEach (K.rules kind.now) posting others.now }
    ensures anywhere { IsTrue result → StandsAnywhere (K.rules kind.now) posting others.now }
{
    // A `for`: of a chain by `all` the check does not find the second clause.
    for other in others {
        if !kind.crosses(posting, *other) {
            return false;
        }
    }
    true
}
