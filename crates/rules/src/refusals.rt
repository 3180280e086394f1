// Why a call is turned away.
ghost use Rattle.std.specs.Prelude.{◌≡◌, Some};
ghost use Rattle.rules.specs.Refusals.{holder_of, number_of};
ghost use Rattle.rules.specs.Shown.{refusal_text};

use std::fmt;

/// The first question that a call failed. At 6 and 7 it carries the holder of the earliest line for
/// which the question fails.
#[derive(Clone, Copy, PartialEq, Eq, Debug)]
pub enum Refusal {
    /// 1: a table was out of its size at set-up, or a first value was unlawful.
    Unsound,
    /// 2: the entry does not stand, or a parent is neither 0 nor a standing entry.
    NotStanding,
    /// 3: the entry has a child that stands.
    HasChild,
    /// 4: there is no cell of that number.
    NoSuchCell,
    /// 5: the kind of cell does not allow the posting.
    UnlawfulPosting,
    /// 6: a line of another entry is in the way, and the posting does not cross it.
    InTheWay { holder: u16 },
    /// 7: an elder holds a line that a line of the entry does not cross.
    HeldByElder { holder: u16 },
    /// 8: every row is filled.
    NoFreeRow,
    /// 9: every line is filled.
    NoFreeLine,
    /// 10: all 65,535 numbers have been given to entries.
    NoNumberLeft,
}

impl Refusal {
    /// The number of the question.
    // The rules number the questions, and answer lines write the number.
    pub fn number(self) -> u8
        ensures { result ≡ number_of self }
    {
        match self {
            Refusal::Unsound => 1,
            Refusal::NotStanding => 2,
            Refusal::HasChild => 3,
            Refusal::NoSuchCell => 4,
            Refusal::UnlawfulPosting => 5,
            Refusal::InTheWay { .. } => 6,
            Refusal::HeldByElder { .. } => 7,
            Refusal::NoFreeRow => 8,
            Refusal::NoFreeLine => 9,
            Refusal::NoNumberLeft => 10,
        }
    }

    /// The holder that the refusal names; 0 at all questions but 6 and 7.
    // 0 and no `None`: the rules have 0 for nobody, and so do answer lines, for which this is.
    pub fn holder(self) -> u16
        ensures { result ≡ holder_of self }
    {
        match self {
            Refusal::InTheWay { holder } | Refusal::HeldByElder { holder } => holder,
            _ => 0,
        }
    }
}

impl fmt::Display for Refusal {
    ghost output = { λ refusal. Some (refusal_text refusal) };

    fn fmt<W: fmt::Write>(&self, f: &mut fmt::Formatter<W>) -> fmt::Result {
        write!(f, "(turned {} {})", self.number(), self.holder())
    }
}
