// The records of the rules as a caller meets them: what a refusal tells, how refusals, calls and replies
// are written, and what the default row and line are.
use crate::calls::{Call, Reply};
use crate::lines::Line;
use crate::refusals::Refusal;
use crate::rows::Row;
use cells::answers::Answer;
use cells::levels::LevelPosting;
use std::test::Fail;

#[test]
fn refusals_have_the_numbers_of_their_questions(rt: HostRuntime) {
    assert_eq!(rt; Refusal::Unsound.number(), 1);
    assert_eq!(rt; Refusal::NotStanding.number(), 2);
    assert_eq!(rt; Refusal::HasChild.number(), 3);
    assert_eq!(rt; Refusal::NoSuchCell.number(), 4);
    assert_eq!(rt; Refusal::UnlawfulPosting.number(), 5);
    assert_eq!(rt; Refusal::InTheWay { holder: 12 }.number(), 6);
    assert_eq!(rt; Refusal::HeldByElder { holder: 12 }.number(), 7);
    assert_eq!(rt; Refusal::NoFreeRow.number(), 8);
    assert_eq!(rt; Refusal::NoFreeLine.number(), 9);
    assert_eq!(rt; Refusal::NoNumberLeft.number(), 10);
}

#[test]
fn only_lines_that_are_not_crossed_name_a_holder(rt: HostRuntime) {
    assert_eq!(rt; Refusal::InTheWay { holder: 65_535 }.holder(), 65_535);
    assert_eq!(rt; Refusal::HeldByElder { holder: 12 }.holder(), 12);
    assert_eq!(rt; Refusal::NotStanding.holder(), 0);
    assert_eq!(rt; Refusal::NoFreeLine.holder(), 0);
}

#[test]
fn refusals_differ_by_their_holders(rt: HostRuntime) {
    assert_eq!(rt;
        Refusal::InTheWay { holder: 1 },
        Refusal::InTheWay { holder: 1 }
    );
    assert_ne!(rt;
        Refusal::InTheWay { holder: 1 },
        Refusal::InTheWay { holder: 2 }
    );
    assert_ne!(rt;
        Refusal::InTheWay { holder: 1 },
        Refusal::HeldByElder { holder: 1 }
    );
}

#[test]
fn refusals_read_as_in_answer_lines(rt: HostRuntime) -> Result<(), Fail> {
    let heap = rt.alloc();
    let of_nobody = format!(in heap; "{} {}", Refusal::Unsound, Refusal::NoNumberLeft)?;
    assert_eq!(rt; of_nobody.as_str(), "(turned 1 0) (turned 10 0)");
    let in_the_way = Refusal::InTheWay { holder: 1 };
    let held_by_elder = Refusal::HeldByElder { holder: 65_535 };
    let of_holders = format!(in heap; "{in_the_way} {held_by_elder}")?;
    assert_eq!(rt; of_holders.as_str(), "(turned 6 1) (turned 7 65535)");
    Ok(())
}

#[test]
fn calls_read_as_in_scripts(rt: HostRuntime) -> Result<(), Fail> {
    let heap = rt.alloc();
    let calls: [(Call<LevelPosting>, &str); 7] = [
        (Call::Begin { parent: 0 }, "(begin 0)"),
        (
            Call::Post {
                entry: 1,
                cell: 4_095,
                posting: LevelPosting::Set(-1),
            },
            "(post 1 4095 (set -1))",
        ),
        (
            Call::Post {
                entry: 2,
                cell: 0,
                posting: LevelPosting::Look,
            },
            "(post 2 0 (look))",
        ),
        (Call::Keep { entry: 65_535 }, "(keep 65535)"),
        (Call::Publish { entry: 3 }, "(publish 3)"),
        (Call::Abandon { entry: 4 }, "(abandon 4)"),
        (Call::Value { cell: 5 }, "(value 5)"),
    ];
    for (call, text) in calls {
        let written = format!(in heap; "{call}")?;
        assert_eq!(rt; written.as_str(), text);
    }
    Ok(())
}

#[test]
fn replies_read_as_in_answer_lines(rt: HostRuntime) -> Result<(), Fail> {
    let heap = rt.alloc();
    let replies: [(Reply<i32, Answer<i32>>, &str); 5] = [
        (Reply::Entry(7), "(entry 7)"),
        (Reply::Posted(Answer::Seen(60)), "(seen 60)"),
        (Reply::Posted(Answer::Done), "(done)"),
        (Reply::Done, "(done)"),
        (Reply::Value(-2), "(value -2)"),
    ];
    for (reply, text) in replies {
        let written = format!(in heap; "{reply}")?;
        assert_eq!(rt; written.as_str(), text);
    }
    Ok(())
}

#[test]
fn tables_can_be_filled_with_defaults(rt: HostRuntime) {
    let rows = [Row::default(); 2];
    assert_eq!(rt;
        rows[1],
        Row {
            entry: 0,
            parent: 0
        }
    );
    let lines = [Line::default(); 2];
    assert_eq!(rt;
        lines[1],
        Line {
            holder: 0,
            cell: 0,
            posting: LevelPosting::Look,
        }
    );
}
