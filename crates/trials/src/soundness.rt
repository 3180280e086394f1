// A register that was set up over unsound tables turns every call away.
use crate::old_records::{ANY_ROW, any_line};
use cells::levels::{Level, LevelPosting};
use cells::totals::{Total, TotalPosting};
use register::Register;
use rules::lines::Line;
use rules::refusals::Refusal;
use rules::rows::Row;
use std::process::Abort;

fn turns_all_away(rt: &impl Abort, register: &mut Register<i32, LevelPosting>) {
    assert_eq!(rt; register.begin(&Level, 0), Err(Refusal::Unsound));
    assert_eq!(rt;
        register.post(&Level, 1, 0, LevelPosting::Look),
        Err(Refusal::Unsound)
    );
    assert_eq!(rt; register.keep(&Level, 1), Err(Refusal::Unsound));
    assert_eq!(rt; register.publish(&Level, 1), Err(Refusal::Unsound));
    assert_eq!(rt; register.abandon(&Level, 1), Err(Refusal::Unsound));
    assert_eq!(rt; register.value(&Level, 0), Err(Refusal::Unsound));
}

fn is_refused(
    rt: &impl Abort,
    values: &mut [i32],
    rows: &mut [Row],
    lines: &mut [Line<LevelPosting>],
) {
    let mut register = Register::set_up(&Level, values, rows, lines);
    turns_all_away(rt, &mut register);
}

#[test]
fn an_empty_table(rt: HostRuntime) {
    is_refused(
        &rt,
        &mut [],
        &mut [ANY_ROW],
        &mut [any_line(LevelPosting::Set(99))],
    );
    is_refused(
        &rt,
        &mut [0],
        &mut [],
        &mut [any_line(LevelPosting::Set(99))],
    );
    is_refused(&rt, &mut [0], &mut [ANY_ROW], &mut []);
}

#[test]
fn a_table_that_is_too_long(rt: HostRuntime) {
    is_refused(
        &rt,
        &mut [0; 4_097],
        &mut [ANY_ROW],
        &mut [any_line(LevelPosting::Set(99))],
    );
    is_refused(
        &rt,
        &mut [0],
        &mut [ANY_ROW; 257],
        &mut [any_line(LevelPosting::Set(99))],
    );
    is_refused(
        &rt,
        &mut [0],
        &mut [ANY_ROW],
        &mut [any_line(LevelPosting::Set(99)); 4_097],
    );
}

#[test]
fn the_longest_and_the_shortest_tables_will_do(rt: HostRuntime) {
    let mut values = [5; 4_096];
    let mut rows = [ANY_ROW; 256];
    let mut lines = [any_line(LevelPosting::Set(99)); 4_096];
    let mut longest = Register::set_up(&Level, &mut values, &mut rows, &mut lines);
    assert_eq!(rt; longest.begin(&Level, 0), Ok(1));
    assert_eq!(rt; longest.value(&Level, 4_095), Ok(5));
    assert_eq!(rt; longest.value(&Level, 4_096), Err(Refusal::NoSuchCell));
    let mut value = [6];
    let mut row = [ANY_ROW];
    let mut line = [any_line(LevelPosting::Set(99))];
    let mut shortest = Register::set_up(&Level, &mut value, &mut row, &mut line);
    assert_eq!(rt; shortest.begin(&Level, 0), Ok(1));
    assert_eq!(rt; shortest.value(&Level, 0), Ok(6));
}

#[test]
fn an_unlawful_first_value(rt: HostRuntime) {
    let mut values = [0, 1_000_000_000, 3];
    let mut rows = [ANY_ROW; 4];
    let mut lines = [any_line(TotalPosting::Add(99)); 4];
    let mut over = Register::set_up(&Total, &mut values, &mut rows, &mut lines);
    assert_eq!(rt; over.begin(&Total, 0), Err(Refusal::Unsound));
    assert_eq!(rt; over.value(&Total, 0), Err(Refusal::Unsound));
    let mut values = [999_999_999, 0, -1];
    let mut under = Register::set_up(&Total, &mut values, &mut rows, &mut lines);
    assert_eq!(rt; under.begin(&Total, 0), Err(Refusal::Unsound));
    let mut values = [999_999_999, 0, 1];
    let mut within = Register::set_up(&Total, &mut values, &mut rows, &mut lines);
    assert_eq!(rt; within.begin(&Total, 0), Ok(1));
}
