// A round of readings at a dam: two readers at once, in nested entries, over a register of levels and a
// register of totals. Each call is printed with its answer, and at the end the committed values.
#![tactic(auto)]

mod rounds;
mod steps;
mod texts;

use cells::levels::Level;
use cells::totals::Total;
use register::Register;
use rounds::perform_steps;
use rules::lines::Line;
use rules::rows::Row;
use std::io;

/// The levels of both galleries, read by two rounds at once.
fn run_levels(rt: &HostRuntime) -> io::Result<()> {
    let mut values = [1110, 1220, 2330, 2440];
    let mut rows = [Row::default(); 8];
    let mut lines = [Line::default(); 16];
    let mut register = Register::set_up(&Level, &mut values, &mut rows, &mut lines);
    println!(rt; "levels in mm: both rounds begin")?;
    perform_steps(rt, &Level, &mut register, &steps::BOTH_BEGIN)?;
    println!(rt; "a wrong figure is withdrawn")?;
    perform_steps(rt, &Level, &mut register, &steps::WRONG_FIGURE)?;
    println!(rt; "a gallery is published early")?;
    perform_steps(rt, &Level, &mut register, &steps::PUBLISHED_EARLY)?;
    println!(rt; "a round is kept, and the other goes on")?;
    perform_steps(rt, &Level, &mut register, &steps::ROUND_KEPT)?;
    println!(rt; "what cannot be published is kept")?;
    perform_steps(rt, &Level, &mut register, &steps::KEPT_INSTEAD)?;
    println!(rt; "levels at the end")?;
    perform_steps(rt, &Level, &mut register, &steps::LEVELS_AT_THE_END)
}

/// The seepage over one weir, to which two rounds add at once.
fn run_seepage(rt: &HostRuntime) -> io::Result<()> {
    let mut values = [700_000];
    let mut rows = [Row::default(); 8];
    let mut lines = [Line::default(); 16];
    let mut register = Register::set_up(&Total, &mut values, &mut rows, &mut lines);
    println!(rt; "seepage in litres: two add at once")?;
    perform_steps(rt, &Total, &mut register, &steps::SEEPAGE)?;
    println!(rt; "total at the end")?;
    perform_steps(rt, &Total, &mut register, &steps::TOTAL_AT_THE_END)
}

fn main(rt: HostRuntime) -> io::Result<()> {
    run_levels(&rt)?;
    run_seepage(&rt)
}
