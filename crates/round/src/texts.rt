// How steps and answers are written: calls as scripts have them, answers as answer lines have them.
use crate::steps::Step;
use rules::calls::Reply;
use rules::refusals::Refusal;
use std::fmt;

impl<P: fmt::Display> fmt::Display for Step<P> {
    fn fmt<W: fmt::Write>(&self, f: &mut fmt::Formatter<W>) -> fmt::Result {
        write!(f, "{} {}", self.reader, self.call)
    }
}

/// An answer of the register, to be written as an answer line.
#[derive(Drop)]
pub struct AnswerLine<V, O>(pub Result<Reply<V, O>, Refusal>);

impl<V: fmt::Display, O: fmt::Display> fmt::Display for AnswerLine<V, O> {
    fn fmt<W: fmt::Write>(&self, f: &mut fmt::Formatter<W>) -> fmt::Result {
        match &self.0 {
            Ok(reply) => write!(f, "{reply}"),
            Err(refusal) => write!(f, "{refusal}"),
        }
    }
}
