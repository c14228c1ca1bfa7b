/// A record that a set begins with.
#[derive(Clone, Copy)]
pub(crate) enum First {
    /// The head.
    Opens,
    /// A cut: of the target only so many records are kept.
    Keeps { target: u64, kept: u16 },
    /// The ready record.
    IsReady,
}

impl First {
    ghost use Rattle.std.specs.Prelude.{◌≡◌, ◌<◌};

    /// The cut: of the set so many records are kept.
    pub(crate) fn of_cut(cut: (u64, u16)) -> First
        ensures first { result ≡ First.Keeps cut.0 cut.1 }
        ensures short { cut.1 < 65536 }
    {
        let (target, kept) = cut;
        First::Keeps { target, kept }
    }
}
