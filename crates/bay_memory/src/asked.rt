/// The call whose image is asked for.
#[derive(Clone, Copy)]
pub(crate) struct Asked {
    pub call: u64,
    /// How many bytes of its append are done by then.
    pub bytes: u32,
}
