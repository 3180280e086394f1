// Records to fill tables with before they are handed over. Setting up frees them all, so it makes no
// difference what they are.
use rules::lines::Line;
use rules::rows::Row;

pub(crate) const ANY_ROW: Row = Row {
    entry: 7,
    parent: 3,
};

// A function, since the value of a constant may not be a call yet.
pub(crate) fn any_line<P>(posting: P) -> Line<P> {
    Line {
        holder: 7,
        cell: 0,
        posting,
    }
}
