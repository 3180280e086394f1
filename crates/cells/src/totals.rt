// Totals: litres run through a weir, from 0 to 999,999,999, turning over as a meter does.
ghost use Rattle.cells.specs.Shown.{total_posting_text};
ghost use Rattle.cells.specs.Totals.{total_rules};
ghost use Rattle.std.specs.Prelude.{Some};
ghost use Rattle.std.proofs.Common;

use crate::answers::Answer;
use crate::kinds::Kind;
use std::fmt;

/// The number of litres at which a total starts again from 0.
const TURNOVER: i32 = 1_000_000_000;

/// What can be posted on a total. An addition may name any number that a script can write; whether it
/// is lawful is asked of it.
// Each kind has its own posting type: `TotalPosting::Add(15)` would read
// `Posting::Change(Add(15))` of a common type, and `Some(15)` as an `Option`.
#[derive(Clone, Copy, PartialEq, Eq, Debug, Default)]
pub enum TotalPosting {
    #[default]
    Look,
    Add(i32),
}

// The three kinds differ in their word; a common function would only be handed it.
impl fmt::Display for TotalPosting {
    ghost output = { λ posting. Some (total_posting_text posting) };

    fn fmt<W: fmt::Write>(&self, f: &mut fmt::Formatter<W>) -> fmt::Result {
        match self {
            TotalPosting::Look => write!(f, "(look)"),
            TotalPosting::Add(litres) => write!(f, "(add {litres})"),
        }
    }
}

/// The kind of cell that holds a total.
#[derive(Clone, Copy, PartialEq, Eq, Debug)]
pub struct Total;

// The form of a kind is the whole interface, also where another kind answers the same: a default body
// would have to show the rules of every kind.
impl Kind for Total {
    type Value = i32;

    type Posting = TotalPosting;

    type Answer = Answer<i32>;

    ghost rules = { λ _. total_rules };

    ghost crossing = { Prim.search Common.rules };

    fn is_lawful_value(&self, value: i32) -> bool {
        (0..TURNOVER).contains(&value)
    }

    fn is_lawful_posting(&self, posting: TotalPosting) -> bool {
        match posting {
            TotalPosting::Look => true,
            TotalPosting::Add(litres) => (0..TURNOVER).contains(&litres),
        }
    }

    fn after(&self, value: i32, posting: TotalPosting) -> i32 {
        match posting {
            TotalPosting::Look => value,
            TotalPosting::Add(litres) => {
                // Each is brought below the turnover first, so that the sum is an `i32`.
                let sum = value.rem_euclid(TURNOVER) + litres.rem_euclid(TURNOVER);
                sum.rem_euclid(TURNOVER)
            }
        }
    }

    fn answer(&self, value: i32, posting: TotalPosting) -> Answer<i32> {
        match posting {
            TotalPosting::Look => Answer::Seen(value),
            TotalPosting::Add(_) => Answer::Done,
        }
    }

    fn crosses(&self, posting: TotalPosting, other: TotalPosting) -> bool {
        match (posting, other) {
            (TotalPosting::Look, TotalPosting::Look) => true,
            (TotalPosting::Add(_), TotalPosting::Add(_)) => true,
            _ => false,
        }
    }
}
