/// A call that changes what a device holds, or what of it is durable.
#[derive(Clone, Copy)]
pub(crate) enum Change<'a> {
    /// The bytes are put at the end of the zone.
    Append(u16, &'a [u8]),
    /// The zone is emptied.
    Reset(u16),
    Flush,
    Replace,
}
