// Slices that a host lends to values and to a table itself, and looks at when these are gone.
use cells::levels::{Level, LevelPosting};
use rules::rows::Row;
use tables::lending::{put_first, store_in};

#[test]
fn a_posting_is_in_the_slice_when_the_values_are_gone(rt: HostRuntime) {
    let mut levels = [1110, 1220];
    store_in(&Level, &mut levels, 1, LevelPosting::Set(1225));
    store_in(&Level, &mut levels, 2, LevelPosting::Set(9));
    assert_eq!(rt; levels, [1110, 1225]);
}

#[test]
fn a_record_is_in_the_slice_when_the_table_is_gone(rt: HostRuntime) {
    let begun = Row {
        entry: 7,
        parent: 3,
    };
    let mut rows = [Row::default(); 2];
    put_first(&mut rows, begun);
    assert_eq!(rt; rows, [begun, Row::default()]);
    let mut none: [Row; 0] = [];
    put_first(&mut none, begun);
    assert_eq!(rt; none.len(), 0);
}
