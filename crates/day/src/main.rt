// A day's readings of a dam: each instrument's postings are made in turn on its cell and printed
// with their answers, and at the end the closing values.
#![tactic(auto)]

ghost use Rattle.std.specs.Prelude.{◌≡◌, OnOk};
ghost use Rattle.day.specs.Closing.{closing};

mod readings;

use cells::kinds::Kind;
use cells::levels::{Level, LevelPosting};
use cells::marks::{Mark, MarkPosting};
use cells::sequences::{crosses_each, post};
use cells::totals::{Total, TotalPosting};
use readings::Reading;
use rules::refusals::Refusal;
use std::{fmt, io};

/// Posts the readings in turn and prints each with its answer. One that is not lawful is left out,
/// and its line says so as a script's answer line does: question 5, and no holder.
fn post_readings<K: Kind>(
    rt: &HostRuntime,
    kind: &K,
    value: &mut K::Value,
    readings: &[Reading<K::Posting>],
) -> io::Result<()>
where
    K::Posting: fmt::Display,
    K::Answer: fmt::Display,
    ensures { OnOk result (value.new ≡ closing (K.rules kind.now) value.old readings.now) }
{
    for reading in readings {
        let Reading { source, posting } = *reading;
        match post(kind, value, posting) {
            Some(answer) => println!(rt; "  {source} {posting} {answer}")?,
            None => println!(rt; "  {source} {posting} {}", Refusal::UnlawfulPosting)?,
        }
    }
    Ok(())
}

/// Says of a posting that came in late whether its place among the others makes a difference.
fn print_late<K: Kind>(
    rt: &HostRuntime,
    kind: &K,
    late: K::Posting,
    others: &[K::Posting],
) -> io::Result<()>
where
    K::Posting: fmt::Display,
{
    if crosses_each(kind, late, others) {
        println!(rt; "  {late} may stand at any place")
    } else {
        println!(rt; "  {late} has to stand in its turn")
    }
}

/// The readings that came in after the day was written up, each held against the day's own.
fn print_late_readings(rt: &HostRuntime) -> io::Result<()> {
    let levels = [LevelPosting::Set(1250), LevelPosting::Set(1247)];
    print_late(rt, &Level, LevelPosting::Set(1251), &levels)?;
    let additions = [TotalPosting::Add(15), TotalPosting::Add(999_999_999)];
    print_late(rt, &Total, TotalPosting::Add(8), &additions)?;
    let marks = [MarkPosting::Raise(312), MarkPosting::Look];
    print_late(rt, &Mark, MarkPosting::Raise(311), &marks)
}

fn main(rt: HostRuntime) -> io::Result<()> {
    let mut level = 1180;
    let mut litres = 999_999_990;
    let mut mark = -40;
    println!(rt; "standpipe 4, level in mm, {level} in the morning")?;
    post_readings(&rt, &Level, &mut level, &readings::STANDPIPE)?;
    println!(rt; "weir 2, total in litres, {litres} in the morning")?;
    post_readings(&rt, &Total, &mut litres, &readings::WEIR)?;
    println!(rt; "high water, mark in mm, {mark} in the morning")?;
    post_readings(&rt, &Mark, &mut mark, &readings::HIGH_WATER)?;
    println!(rt; "late readings")?;
    print_late_readings(&rt)?;
    println!(rt; "closing values")?;
    println!(rt; "  standpipe 4 {level} mm")?;
    println!(rt; "  weir 2 {litres} litres")?;
    println!(rt; "  high water {mark} mm")
}
