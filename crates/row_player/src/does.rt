/// What a line does.
#[derive(Clone, Copy)]
pub enum Does {
    Array,
    Run,
    /// A run's end.
    Status,
    StatusAt,
    Put,
    Get,
    Delete,
    List,
    ListAfter,
    Stop,
    Frame,
    /// Any reply may come.
    AnyReply,
    /// The reply or the answer that the line says comes next.
    Reply,
    /// A refusal, whose values beyond those that stand there are 0.
    Refused,
    /// A reply as bytes.
    ReplyBytes,
    MapEmpty,
    Map,
    MapBeforeOrAfter,
    SourceFails,
    SourceGives,
    SinkFails,
    SinkTakes,
    ZoneBlocks,
    ZoneBytes,
    ZoneFrom,
    Fail,
    LoseEach,
    Lose,
    CrashFirm,
    CrashAll,
    CrashShort,
    WithoutEach,
    Without,
    Block,
    SetOpen,
    SetPart,
    SetNote,
    SetFlush,
    SetClose,
    SetNext,
    SetReserve,
    SetRead,
    SetReadOf,
    SetIs,
    Scan,
    ScanBeforeOrAfter,
    Closing,
    /// A set's answers: done, a record's bytes, fewer drives than are wanted, a set that falls short, and others.
    AnswerOk,
    AnswerBytes,
    Answer,
    EachCallFails,
    EachCallStops,
    EachCallStopsFirm,
    EachCutting,
    StopAt,
    StopInAppend,
    StopInAppendOf,
    StopInCallOf,
}

/// Of what a file's rows speak.
#[derive(Clone, Copy)]
pub enum Language {
    Store,
    Sets,
}

/// Where a line may stand.
#[derive(Clone, Copy)]
pub(crate) enum Place {
    /// Outside a run, in rows of the store and of sets.
    Both,
    /// Outside a run, in rows of the store.
    Store,
    /// In a run, which rows of the store have.
    Run,
    /// In rows of sets.
    Sets,
}

impl Place {
    /// Whether such a line may stand in a run, or outside of one, of this language.
    pub(crate) fn is_in(self, language: Language, in_run: bool) -> bool {
        match self {
            Place::Run => in_run,
            Place::Both => !in_run,
            Place::Store => !in_run && matches!(language, Language::Store),
            Place::Sets => !in_run && matches!(language, Language::Sets),
        }
    }
}

impl Does {
    /// Whether it begins a variation: what stands above is played again.
    pub(crate) fn is_variation(self) -> bool {
        matches!(
            self,
            Does::EachCallFails
                | Does::EachCallStops
                | Does::EachCallStopsFirm
                | Does::EachCutting
                | Does::StopAt
                | Does::StopInAppend
                | Does::StopInAppendOf
                | Does::StopInCallOf
        )
    }

    /// Whether drives are chosen for it.
    pub(crate) fn chooses(self) -> bool {
        matches!(self, Does::LoseEach | Does::WithoutEach)
    }

    /// Whether the bay becomes an image of what it held.
    pub(crate) fn is_image(self) -> bool {
        matches!(
            self,
            Does::CrashFirm | Does::CrashAll | Does::CrashShort | Does::Without | Does::WithoutEach
        )
    }

    /// Whether it is a call on a set, behind which an answer stands.
    pub(crate) fn is_set_call(self) -> bool {
        matches!(
            self,
            Does::SetOpen
                | Does::SetPart
                | Does::SetNote
                | Does::SetFlush
                | Does::SetClose
                | Does::SetNext
                | Does::SetReserve
                | Does::SetRead
                | Does::SetReadOf
        )
    }

    /// Whether a stop asks which calls append.
    pub fn stops(self) -> bool {
        matches!(
            self,
            Does::EachCallStops | Does::StopInAppend | Does::StopInAppendOf
        )
    }

    /// Whether it is a call of a run that has a reply.
    pub fn is_request(self) -> bool {
        matches!(
            self,
            Does::Put | Does::Get | Does::Delete | Does::List | Does::ListAfter | Does::Frame
        )
    }

    /// Whether it says what a call answers.
    pub fn is_reply(self) -> bool {
        matches!(
            self,
            Does::AnyReply
                | Does::Reply
                | Does::Refused
                | Does::ReplyBytes
                | Does::AnswerOk
                | Does::AnswerBytes
                | Does::Answer
        )
    }
}
