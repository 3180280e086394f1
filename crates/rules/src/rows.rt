// A row of the register: one standing entry.

/// An entry (a transaction) that stands, and the entry it was begun under.
// A parent by its number, and no tree of boxes: the host hands the rows over, and there is no heap.
#[derive(Clone, Copy, PartialEq, Eq, Debug, Default)]
pub struct Row {
    /// From 1 to 65,535, in the order in which entries are begun; no number returns.
    pub entry: u16,
    /// 0 is the register itself: the entry is then a top entry.
    // 0 and no `Option`: scripts and the rules name a parent so.
    pub parent: u16,
}
