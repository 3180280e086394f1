// A line of the register: one posting that was taken.

/// A posting that was taken and is neither stored nor dropped yet.
#[derive(Clone, Copy, PartialEq, Eq, Debug, Default)]
pub struct Line<P> {
    /// The entry that the line belongs to.
    pub holder: u16,
    pub cell: usize,
    pub posting: P,
}
