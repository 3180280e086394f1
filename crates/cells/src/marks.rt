// Marks: the highest level that was reached, in the range of levels.
ghost use Rattle.cells.specs.Marks.{mark_rules};
ghost use Rattle.cells.specs.Shown.{mark_posting_text};
ghost use Rattle.std.specs.Prelude.{Some};
ghost use Rattle.std.proofs.Common;

use crate::answers::Answer;
use crate::kinds::Kind;
use std::fmt;

/// What can be posted on a mark.
// Each kind has its own posting type: `MarkPosting::Raise(312)` would read
// `Posting::Change(Raise(312))` of a common type, and `Some(312)` as an `Option`.
#[derive(Clone, Copy, PartialEq, Eq, Debug, Default)]
pub enum MarkPosting {
    #[default]
    Look,
    Raise(i32),
}

// The three kinds differ in their word; a common function would only be handed it.
impl fmt::Display for MarkPosting {
    ghost output = { λ posting. Some (mark_posting_text posting) };

    fn fmt<W: fmt::Write>(&self, f: &mut fmt::Formatter<W>) -> fmt::Result {
        match self {
            MarkPosting::Look => write!(f, "(look)"),
            MarkPosting::Raise(level) => write!(f, "(raise {level})"),
        }
    }
}

/// The kind of cell that holds a mark.
#[derive(Clone, Copy, PartialEq, Eq, Debug)]
pub struct Mark;

// The form of a kind is the whole interface, also where another kind answers the same: a default body
// would have to show the rules of every kind.
impl Kind for Mark {
    type Value = i32;

    type Posting = MarkPosting;

    type Answer = Answer<i32>;

    ghost rules = { λ _. mark_rules };

    ghost crossing = { Prim.search Common.rules };

    fn is_lawful_value(&self, _value: i32) -> bool {
        true // every i32 is a mark
    }

    fn is_lawful_posting(&self, _posting: MarkPosting) -> bool {
        true // a look always is, and a raise names an i32
    }

    fn after(&self, value: i32, posting: MarkPosting) -> i32 {
        match posting {
            MarkPosting::Look => value,
            MarkPosting::Raise(level) => value.max(level),
        }
    }

    fn answer(&self, value: i32, posting: MarkPosting) -> Answer<i32> {
        match posting {
            MarkPosting::Look => Answer::Seen(value),
            MarkPosting::Raise(_) => Answer::Done,
        }
    }

    fn crosses(&self, posting: MarkPosting, other: MarkPosting) -> bool {
        match (posting, other) {
            (MarkPosting::Look, MarkPosting::Look) => true,
            (MarkPosting::Raise(_), MarkPosting::Raise(_)) => true,
            _ => false,
        }
    }
}
