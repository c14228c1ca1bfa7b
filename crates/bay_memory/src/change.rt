/// A change of all that a zone holds.
#[derive(Clone, Copy)]
pub(crate) enum Change {
    /// All of it is firm.
    Flush,
    /// All of it is gone.
    Reset,
}
