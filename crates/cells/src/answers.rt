// What a posting on a cell of numbers is answered.
ghost use Rattle.cells.specs.Shown.{answer_text};
ghost use Rattle.std.specs.Prelude.{Some};

use std::fmt;

/// The value that a look found, or only that the posting is done.
// No `Option`: `Some(Answer::Done)`, which says that a posting was taken, would read `Some(None)`.
#[derive(Clone, Copy, PartialEq, Eq, Debug)]
pub enum Answer<V> {
    Seen(V),
    Done,
}

impl fmt::Display for Answer<i32> {
    ghost output = { λ answer. Some (answer_text answer) };

    fn fmt<W: fmt::Write>(&self, f: &mut fmt::Formatter<W>) -> fmt::Result {
        match self {
            Answer::Seen(value) => write!(f, "(seen {value})"),
            Answer::Done => write!(f, "(done)"),
        }
    }
}
