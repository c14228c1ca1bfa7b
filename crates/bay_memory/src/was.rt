/// What a zone held until a call changed it.
#[derive(Clone, Copy)]
pub(crate) struct Was {
    /// The moment of that call.
    pub moment: u64,
    /// The zone held its bytes from here ..
    pub start: usize,
    /// .. to here, and of those
    pub end: usize,
    /// so many were firm.
    pub firm: usize,
}
