// Entries get the numbers 1 to 65,535, and then none.
use crate::old_records::{ANY_ROW, any_line};
use cells::levels::{Level, LevelPosting};
use register::Register;
use rules::refusals::Refusal;

#[test]
fn the_numbers_run_out(rt: HostRuntime) {
    let mut values = [0];
    let mut rows = [ANY_ROW; 2];
    let mut lines = [any_line(LevelPosting::Set(99)); 1];
    let mut register = Register::set_up(&Level, &mut values, &mut rows, &mut lines);
    for number in 1..=65_534 {
        assert_eq!(rt; register.begin(&Level, 0), Ok(number));
        assert_eq!(rt; register.abandon(&Level, number), Ok(()));
    }
    assert_eq!(rt; register.begin(&Level, 0), Ok(65_535));
    assert_eq!(rt; register.begin(&Level, 65_535), Err(Refusal::NoNumberLeft));
    assert_eq!(rt; register.keep(&Level, 65_535), Ok(()));
    assert_eq!(rt; register.begin(&Level, 0), Err(Refusal::NoNumberLeft));
    assert_eq!(rt; register.begin(&Level, 1), Err(Refusal::NotStanding));
}

#[test]
fn setting_up_again_starts_the_numbers_anew(rt: HostRuntime) {
    let mut values = [4];
    let mut rows = [ANY_ROW; 2];
    let mut lines = [any_line(LevelPosting::Set(99)); 1];
    let mut register = Register::set_up(&Level, &mut values, &mut rows, &mut lines);
    assert_eq!(rt; register.begin(&Level, 0), Ok(1));
    assert_eq!(rt; register.begin(&Level, 1), Ok(2));
    let mut anew = Register::set_up(&Level, &mut values, &mut rows, &mut lines);
    assert_eq!(rt; anew.keep(&Level, 1), Err(Refusal::NotStanding));
    assert_eq!(rt; anew.begin(&Level, 0), Ok(1));
    assert_eq!(rt; anew.value(&Level, 0), Ok(4));
}
