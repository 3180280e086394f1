// Laws over every run of calls since set-up, each as the contract of a function that anyone may call.
ghost use Rattle.rules.specs.FairCopy.{FairCopyLaw};
ghost use Rattle.rules.specs.TurnedAway.{RefusalLaw};

use cells::kinds::Kind;

/// The fair-copy law holds of every register over cells of this kind.
///
/// A book is fed the calls with their answers and writes a fair copy of them. Whatever the first
/// values and the sizes of the tables were, and whatever calls were made since set-up:
///
/// - The fair copy, posted line by line on the first values, gives each line the answer that the
///   register gave, and ends in the committed values.
/// - For every standing entry, the copies so far of its elders, eldest first, and then its own,
///   posted next, give each line the answer that the register gave, and leave in every cell the
///   value that the entry sees there.
/// - The entries that stand in the book, and their parents, are the register's. Each entry that was
///   kept at the top or published is one block of the fair copy, in the order in which they were
///   kept and published, and nothing else is in it.
pub fn fair_copy_law<K: Kind>(kind: &K)
    ensures { FairCopyLaw (K.rules kind.now) }
{}

/// A register over cells of this kind turns a call away for the first question that it fails.
///
/// Whatever led to where the register stands: a call that is turned away changes nothing, the
/// refusal is that of a question which the call fails, and the call fails none of a lower number. A
/// call that is taken fails none at all. Refusals 6 and 7 name the holder of the earliest line for
/// which the question fails, and all others name 0.
pub fn refusal_law<K: Kind>(kind: &K)
    ensures { RefusalLaw (K.rules kind.now) }
{}
