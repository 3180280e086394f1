// Entries nested 255 deep.
use crate::old_records::{ANY_ROW, any_line};
use cells::answers::Answer;
use cells::levels::{Level, LevelPosting};
use register::Register;
use rules::refusals::Refusal;

#[test]
fn the_innermost_sees_the_outermost_and_its_lines_pass_all_the_way_up(rt: HostRuntime) {
    let mut values = [1, 2];
    let mut rows = [ANY_ROW; 256];
    let mut lines = [any_line(LevelPosting::Set(99)); 8];
    let mut register = Register::set_up(&Level, &mut values, &mut rows, &mut lines);
    assert_eq!(rt; register.begin(&Level, 0), Ok(1));
    assert_eq!(rt;
        register.post(&Level, 1, 0, LevelPosting::Set(100)),
        Ok(Answer::Done)
    );
    for entry in 2..=255 {
        assert_eq!(rt; register.begin(&Level, entry - 1), Ok(entry));
    }
    assert_eq!(rt;
        register.post(&Level, 255, 0, LevelPosting::Look),
        Ok(Answer::Seen(100))
    );
    assert_eq!(rt;
        register.post(&Level, 255, 1, LevelPosting::Set(200)),
        Ok(Answer::Done)
    );
    assert_eq!(rt; register.begin(&Level, 0), Ok(256));
    assert_eq!(rt; register.begin(&Level, 255), Err(Refusal::NoFreeRow));
    for holder in (2..=255).rev() {
        assert_eq!(rt;
            register.post(&Level, 256, 1, LevelPosting::Look),
            Err(Refusal::InTheWay { holder })
        );
        assert_eq!(rt; register.keep(&Level, 1), Err(Refusal::HasChild));
        assert_eq!(rt; register.keep(&Level, holder), Ok(()));
    }
    assert_eq!(rt; register.value(&Level, 1), Ok(2));
    assert_eq!(rt; register.keep(&Level, 1), Ok(()));
    assert_eq!(rt; register.value(&Level, 0), Ok(100));
    assert_eq!(rt; register.value(&Level, 1), Ok(200));
    assert_eq!(rt;
        register.post(&Level, 256, 1, LevelPosting::Look),
        Ok(Answer::Seen(200))
    );
}

#[test]
fn an_abandon_at_the_top_ends_all_inside(rt: HostRuntime) {
    let mut values = [1];
    let mut rows = [ANY_ROW; 256];
    let mut lines = [any_line(LevelPosting::Set(99)); 255];
    let mut register = Register::set_up(&Level, &mut values, &mut rows, &mut lines);
    // Entry 1 is a stranger; the nest is 2 to 256, and each of them posts.
    assert_eq!(rt; register.begin(&Level, 0), Ok(1));
    assert_eq!(rt; register.begin(&Level, 0), Ok(2));
    assert_eq!(rt;
        register.post(&Level, 2, 0, LevelPosting::Set(2)),
        Ok(Answer::Done)
    );
    for entry in 3..=256 {
        assert_eq!(rt; register.begin(&Level, entry - 1), Ok(entry));
        assert_eq!(rt;
            register.post(&Level, entry, 0, LevelPosting::Set(i32::from(entry))),
            Ok(Answer::Done)
        );
    }
    assert_eq!(rt;
        register.post(&Level, 1, 0, LevelPosting::Look),
        Err(Refusal::InTheWay { holder: 2 })
    );
    assert_eq!(rt; register.abandon(&Level, 2), Ok(()));
    for entry in 2..=256 {
        assert_eq!(rt; register.abandon(&Level, entry), Err(Refusal::NotStanding));
    }
    assert_eq!(rt;
        register.post(&Level, 1, 0, LevelPosting::Look),
        Ok(Answer::Seen(1))
    );
    assert_eq!(rt; register.begin(&Level, 1), Ok(257));
}
