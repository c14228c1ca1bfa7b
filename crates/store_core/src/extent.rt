/// What is known of a name's object without its bytes.
#[derive(Clone, Copy, Debug, PartialEq, Eq)]
pub(crate) enum Extent {
    /// It has so many bytes.
    Sized { bytes: u32 },
    /// It is broken: this part of the upload is the first that isn't there, or of so many parts the lengths don't add up.
    Broken { upload: u64, part: u32 },
}
