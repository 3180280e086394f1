// Steps made one after another on a register.
ghost use Rattle.register.specs.Views.{view};
ghost use Rattle.round.specs.Rounds.{GoneThrough, calls_of};
ghost use Rattle.std.specs.Prelude.{OnOk};

use crate::steps::Step;
use crate::texts::AnswerLine;
use cells::kinds::Kind;
use register::Register;
use std::{fmt, io};

/// Makes the calls of the steps in turn and prints each with its answer. One that is turned away is
/// printed as such, and the round goes on.
pub fn perform_steps<K: Kind>(
    rt: &HostRuntime,
    kind: &K,
    register: &mut Register<'_, K::Value, K::Posting>,
    steps: &[Step<K::Posting>],
) -> io::Result<()>
where
    K::Value: fmt::Display,
    K::Posting: fmt::Display,
    K::Answer: fmt::Display,
    ensures { OnOk result (GoneThrough (K.rules kind.now) (view register.old) (calls_of steps.now) (view register.new)) }
{
    for step in steps {
        let answer = AnswerLine(register.perform(kind, step.call));
        println!(rt; "  {step} {answer}")?;
    }
    Ok(())
}
