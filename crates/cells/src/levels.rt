// Levels: a water level in millimetres, from -2,147,483,648 to 2,147,483,647, the whole of an `i32`.
ghost use Rattle.cells.specs.Levels.{level_rules};
ghost use Rattle.cells.specs.Shown.{level_posting_text};
ghost use Rattle.std.specs.Prelude.{Some};
ghost use Rattle.std.proofs.Common;

use crate::answers::Answer;
use crate::kinds::Kind;
use std::fmt;

/// What can be posted on a level.
// Each kind has its own posting type: `LevelPosting::Set(250)` would read
// `Posting::Change(Set(250))` of a common type, and `Some(250)` as an `Option`.
#[derive(Clone, Copy, PartialEq, Eq, Debug, Default)]
pub enum LevelPosting {
    #[default]
    Look,
    Set(i32),
}

// The three kinds differ in their word; a common function would only be handed it.
impl fmt::Display for LevelPosting {
    ghost output = { λ posting. Some (level_posting_text posting) };

    fn fmt<W: fmt::Write>(&self, f: &mut fmt::Formatter<W>) -> fmt::Result {
        match self {
            LevelPosting::Look => write!(f, "(look)"),
            LevelPosting::Set(level) => write!(f, "(set {level})"),
        }
    }
}

/// The kind of cell that holds a level.
#[derive(Clone, Copy, PartialEq, Eq, Debug)]
pub struct Level;

// The form of a kind is the whole interface, also where another kind answers the same: a default body
// would have to show the rules of every kind.
impl Kind for Level {
    type Value = i32;

    type Posting = LevelPosting;

    type Answer = Answer<i32>;

    ghost rules = { λ _. level_rules };

    ghost crossing = { Prim.search Common.rules };

    fn is_lawful_value(&self, _value: i32) -> bool {
        true // every i32 is a level
    }

    fn is_lawful_posting(&self, _posting: LevelPosting) -> bool {
        true // a look always is, and a set names an i32
    }

    fn after(&self, value: i32, posting: LevelPosting) -> i32 {
        match posting {
            LevelPosting::Look => value,
            LevelPosting::Set(level) => level,
        }
    }

    fn answer(&self, value: i32, posting: LevelPosting) -> Answer<i32> {
        match posting {
            LevelPosting::Look => Answer::Seen(value),
            LevelPosting::Set(_) => Answer::Done,
        }
    }

    fn crosses(&self, posting: LevelPosting, other: LevelPosting) -> bool {
        match (posting, other) {
            (LevelPosting::Look, LevelPosting::Look) => true,
            _ => false,
        }
    }
}
