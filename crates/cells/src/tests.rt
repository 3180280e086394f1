// Worked examples, each figured from the rules by hand.
use crate::answers::Answer;
use crate::kinds::Kind;
use crate::levels::{Level, LevelPosting};
use crate::marks::{Mark, MarkPosting};
use crate::sequences::{crosses_each, post};
use crate::totals::{Total, TotalPosting};
use std::test::Fail;

#[test]
fn totals_have_bounds(rt: HostRuntime) {
    assert!(rt; !Total.is_lawful_value(-1));
    assert!(rt; Total.is_lawful_value(0));
    assert!(rt; Total.is_lawful_value(999_999_999));
    assert!(rt; !Total.is_lawful_value(1_000_000_000));
    assert!(rt; Total.is_lawful_posting(TotalPosting::Look));
    assert!(rt; !Total.is_lawful_posting(TotalPosting::Add(-1)));
    assert!(rt; Total.is_lawful_posting(TotalPosting::Add(0)));
    assert!(rt; Total.is_lawful_posting(TotalPosting::Add(999_999_999)));
    assert!(rt; !Total.is_lawful_posting(TotalPosting::Add(1_000_000_000)));
}

#[test]
fn every_number_is_a_level_and_a_mark(rt: HostRuntime) {
    assert!(rt; Level.is_lawful_value(i32::MIN));
    assert!(rt; Level.is_lawful_posting(LevelPosting::Set(i32::MAX)));
    assert!(rt; Mark.is_lawful_value(i32::MAX));
    assert!(rt; Mark.is_lawful_posting(MarkPosting::Raise(i32::MIN)));
}

#[test]
fn alike_postings_cross_but_for_sets(rt: HostRuntime) {
    assert!(rt; Level.crosses(LevelPosting::Look, LevelPosting::Look));
    assert!(rt; !Level.crosses(LevelPosting::Look, LevelPosting::Set(1)));
    assert!(rt; !Level.crosses(LevelPosting::Set(1), LevelPosting::Look));
    assert!(rt; !Level.crosses(LevelPosting::Set(1), LevelPosting::Set(1)));
    assert!(rt; Total.crosses(TotalPosting::Look, TotalPosting::Look));
    assert!(rt; !Total.crosses(TotalPosting::Look, TotalPosting::Add(0)));
    assert!(rt; !Total.crosses(TotalPosting::Add(0), TotalPosting::Look));
    assert!(rt; Total.crosses(TotalPosting::Add(1), TotalPosting::Add(2)));
    assert!(rt; Mark.crosses(MarkPosting::Look, MarkPosting::Look));
    assert!(rt; !Mark.crosses(MarkPosting::Look, MarkPosting::Raise(i32::MIN)));
    assert!(rt; !Mark.crosses(MarkPosting::Raise(i32::MIN), MarkPosting::Look));
    assert!(rt; Mark.crosses(MarkPosting::Raise(1), MarkPosting::Raise(2)));
}

#[test]
fn postings_store_and_answer(rt: HostRuntime) {
    let mut total = 999_999_990;
    assert_eq!(rt;
        post(&Total, &mut total, TotalPosting::Add(15)),
        Some(Answer::Done)
    );
    assert_eq!(rt;
        post(&Total, &mut total, TotalPosting::Look),
        Some(Answer::Seen(5))
    );
    let mut mark = -40;
    assert_eq!(rt;
        post(&Mark, &mut mark, MarkPosting::Raise(-50)),
        Some(Answer::Done)
    );
    assert_eq!(rt;
        post(&Mark, &mut mark, MarkPosting::Look),
        Some(Answer::Seen(-40))
    );
    let mut level = 0;
    assert_eq!(rt;
        post(&Level, &mut level, LevelPosting::Set(250)),
        Some(Answer::Done)
    );
    assert_eq!(rt;
        post(&Level, &mut level, LevelPosting::Look),
        Some(Answer::Seen(250))
    );
}

#[test]
fn an_unlawful_posting_stores_nothing(rt: HostRuntime) {
    let mut total = 7;
    assert_eq!(rt;
        post(&Total, &mut total, TotalPosting::Add(1_000_000_000)),
        None
    );
    assert_eq!(rt; post(&Total, &mut total, TotalPosting::Add(-1)), None);
    assert_eq!(rt; total, 7);
}

#[test]
fn one_that_is_not_crossed_is_enough(rt: HostRuntime) {
    let additions = [TotalPosting::Add(3), TotalPosting::Add(4)];
    assert!(rt; crosses_each(&Total, TotalPosting::Add(5), &additions));
    assert!(rt; !crosses_each(&Total, TotalPosting::Look, &additions));
    assert!(rt;
        !crosses_each(
            &Mark,
            MarkPosting::Raise(1),
            &[MarkPosting::Raise(2), MarkPosting::Look],
        )
    );
    assert!(rt; crosses_each(&Level, LevelPosting::Set(1), &[]));
}

#[test]
fn postings_and_answers_read_as_in_scripts(rt: HostRuntime) -> Result<(), Fail> {
    let heap = rt.alloc();
    let level = format!(in heap; "{} {}", LevelPosting::Look, LevelPosting::Set(-1))?;
    assert_eq!(rt; level.as_str(), "(look) (set -1)");
    let total = format!(in heap; "{} {}", TotalPosting::Look, TotalPosting::Add(0))?;
    assert_eq!(rt; total.as_str(), "(look) (add 0)");
    let mark = format!(in heap; "{} {}", MarkPosting::Look, MarkPosting::Raise(i32::MIN))?;
    assert_eq!(rt; mark.as_str(), "(look) (raise -2147483648)");
    let seen: Answer<i32> = Answer::Seen(60);
    let done: Answer<i32> = Answer::Done;
    let answers = format!(in heap; "{seen} {done}")?;
    assert_eq!(rt; answers.as_str(), "(seen 60) (done)");
    Ok(())
}
