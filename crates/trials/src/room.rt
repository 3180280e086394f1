// Rows and lines run out, and those that have ended are used again.
use crate::old_records::{ANY_ROW, any_line};
use cells::answers::Answer;
use cells::levels::{Level, LevelPosting};
use register::Register;
use rules::refusals::Refusal;

#[test]
fn a_row_is_used_again_and_a_number_is_not(rt: HostRuntime) {
    let mut values = [0];
    let mut rows = [ANY_ROW; 2];
    let mut lines = [any_line(LevelPosting::Set(99)); 4];
    let mut register = Register::set_up(&Level, &mut values, &mut rows, &mut lines);
    assert_eq!(rt; register.begin(&Level, 0), Ok(1));
    assert_eq!(rt; register.begin(&Level, 1), Ok(2));
    assert_eq!(rt; register.begin(&Level, 0), Err(Refusal::NoFreeRow));
    assert_eq!(rt; register.keep(&Level, 2), Ok(()));
    assert_eq!(rt; register.begin(&Level, 1), Ok(3));
    assert_eq!(rt; register.begin(&Level, 1), Err(Refusal::NoFreeRow));
    assert_eq!(rt; register.abandon(&Level, 1), Ok(()));
    assert_eq!(rt; register.begin(&Level, 0), Ok(4));
    assert_eq!(rt; register.begin(&Level, 0), Ok(5));
    assert_eq!(rt; register.begin(&Level, 0), Err(Refusal::NoFreeRow));
}

#[test]
fn a_parent_that_does_not_stand_is_asked_about_before_rows(rt: HostRuntime) {
    let mut values = [0];
    let mut rows = [ANY_ROW; 1];
    let mut lines = [any_line(LevelPosting::Set(99)); 1];
    let mut register = Register::set_up(&Level, &mut values, &mut rows, &mut lines);
    assert_eq!(rt; register.begin(&Level, 7), Err(Refusal::NotStanding));
    assert_eq!(rt; register.begin(&Level, 0), Ok(1));
    assert_eq!(rt; register.begin(&Level, 7), Err(Refusal::NotStanding));
    assert_eq!(rt; register.begin(&Level, 1), Err(Refusal::NoFreeRow));
}

#[test]
fn lines_are_used_again(rt: HostRuntime) {
    let mut values = [10, 20];
    let mut rows = [ANY_ROW; 4];
    let mut lines = [any_line(LevelPosting::Set(99)); 2];
    let mut register = Register::set_up(&Level, &mut values, &mut rows, &mut lines);
    assert_eq!(rt; register.begin(&Level, 0), Ok(1));
    assert_eq!(rt;
        register.post(&Level, 1, 0, LevelPosting::Set(11)),
        Ok(Answer::Done)
    );
    assert_eq!(rt; register.begin(&Level, 1), Ok(2));
    // A look fills a line as well.
    assert_eq!(rt;
        register.post(&Level, 2, 1, LevelPosting::Look),
        Ok(Answer::Seen(20))
    );
    assert_eq!(rt;
        register.post(&Level, 2, 1, LevelPosting::Look),
        Err(Refusal::NoFreeLine)
    );
    assert_eq!(rt; register.publish(&Level, 2), Ok(()));
    assert_eq!(rt;
        register.post(&Level, 1, 1, LevelPosting::Set(21)),
        Ok(Answer::Done)
    );
    assert_eq!(rt;
        register.post(&Level, 1, 1, LevelPosting::Look),
        Err(Refusal::NoFreeLine)
    );
    assert_eq!(rt; register.keep(&Level, 1), Ok(()));
    assert_eq!(rt; register.value(&Level, 0), Ok(11));
    assert_eq!(rt; register.value(&Level, 1), Ok(21));
}

#[test]
fn a_line_in_the_way_is_asked_about_before_room(rt: HostRuntime) {
    let mut values = [0];
    let mut rows = [ANY_ROW; 4];
    let mut lines = [any_line(LevelPosting::Set(99)); 1];
    let mut register = Register::set_up(&Level, &mut values, &mut rows, &mut lines);
    assert_eq!(rt; register.begin(&Level, 0), Ok(1));
    assert_eq!(rt; register.begin(&Level, 0), Ok(2));
    assert_eq!(rt;
        register.post(&Level, 2, 0, LevelPosting::Look),
        Ok(Answer::Seen(0))
    );
    assert_eq!(rt;
        register.post(&Level, 1, 0, LevelPosting::Set(5)),
        Err(Refusal::InTheWay { holder: 2 })
    );
    assert_eq!(rt;
        register.post(&Level, 1, 0, LevelPosting::Look),
        Err(Refusal::NoFreeLine)
    );
    assert_eq!(rt; register.abandon(&Level, 2), Ok(()));
    assert_eq!(rt;
        register.post(&Level, 1, 0, LevelPosting::Set(5)),
        Ok(Answer::Done)
    );
}
