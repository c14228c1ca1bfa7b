ghost use Rattle.std.specs.Prelude.{IsTrue, ◌↔◌};
ghost use Rattle.marker_format.specs.Frame.{HasFrame, AreZeros};

/// Whether there are so many bytes, and they begin with the magic word.
pub(crate) fn has_frame(bytes: &[u8], magic: &[u8; 8], length: usize) -> bool
    ensures { IsTrue result ↔ HasFrame magic.now length bytes.now }
{
    bytes.len() == length && bytes.starts_with(magic)
}

/// Whether each byte is 0.
pub(crate) fn are_zeros(bytes: &[u8]) -> bool
    ensures { IsTrue result ↔ AreZeros bytes.now }
{
    bytes.iter().all(|byte| *byte == 0)
}
