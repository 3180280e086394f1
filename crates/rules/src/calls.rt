// What the register can be asked, and what it answers to a call that it takes.
ghost use Rattle.rules.specs.Shown.{call_text, reply_text};

use std::fmt;

/// A call to the register.
#[derive(Clone, Copy, PartialEq, Eq, Debug)]
pub enum Call<P> {
    /// Begin a new entry under the parent; under 0 it is a top entry.
    // 0 and no `Option`: it is the number that a script names.
    Begin { parent: u16 },
    /// Make a posting on a cell, inside an entry.
    Post { entry: u16, cell: usize, posting: P },
    /// End an entry and hand its lines to its parent; at the top, store them.
    Keep { entry: u16 },
    /// End an entry and store its lines at once.
    Publish { entry: u16 },
    /// End an entry and every entry inside it, and drop their lines.
    Abandon { entry: u16 },
    /// Show the committed value of a cell.
    Value { cell: usize },
}

impl<P: fmt::Display> fmt::Display for Call<P> {
    ghost output = { call_text P.output };

    fn fmt<W: fmt::Write>(&self, f: &mut fmt::Formatter<W>) -> fmt::Result {
        match self {
            Call::Begin { parent } => write!(f, "(begin {parent})"),
            Call::Post {
                entry,
                cell,
                posting,
            } => write!(f, "(post {entry} {cell} {posting})"),
            Call::Keep { entry } => write!(f, "(keep {entry})"),
            Call::Publish { entry } => write!(f, "(publish {entry})"),
            Call::Abandon { entry } => write!(f, "(abandon {entry})"),
            Call::Value { cell } => write!(f, "(value {cell})"),
        }
    }
}

/// The answer to a call that is taken.
#[derive(Clone, Copy, PartialEq, Eq, Debug)]
pub enum Reply<V, O> {
    /// To a begin: the new entry's number.
    Entry(u16),
    /// To a post: the kind's answer at the value that the entry sees.
    Posted(O),
    /// To a keep, a publish and an abandon.
    Done,
    /// To a value: the committed value of the cell.
    Value(V),
}

impl<V: fmt::Display, O: fmt::Display> fmt::Display for Reply<V, O> {
    ghost output = { reply_text V.output O.output };

    fn fmt<W: fmt::Write>(&self, f: &mut fmt::Formatter<W>) -> fmt::Result {
        match self {
            Reply::Entry(entry) => write!(f, "(entry {entry})"),
            Reply::Posted(answer) => write!(f, "{answer}"),
            Reply::Done => write!(f, "(done)"),
            Reply::Value(value) => write!(f, "(value {value})"),
        }
    }
}
