use crate::does::Does;
use crate::fault::Fault;
use crate::line::Line;
use std::alloc::Global;
use std::fmt;

/// All bytes of an append.
pub const ALL: u32 = u32::MAX;

/// The call of a stop that there is none for.
const NO_CALL: u64 = u64::MAX;

/// How a segment is played.
#[derive(Clone, Copy)]
pub enum Twist {
    Plain,
    /// This call of the bay fails: replies may be refusals.
    Fails(u64),
    /// The image of this call is kept, when so many bytes of its append are done.
    Stops(u64, u32),
    /// The image of what was firm at this call is kept.
    StopsFirm(u64),
    /// The inputs are cut behind so many bytes.
    Cut(usize),
}

impl Twist {
    /// Whether a call fails.
    pub fn is_failure(self) -> bool {
        matches!(self, Twist::Fails(_))
    }

    /// Whether an image is kept, and nothing else changes.
    pub fn is_stop(self) -> bool {
        matches!(self, Twist::Stops(..) | Twist::StopsFirm(_))
    }
}

impl fmt::Display for Twist {
    fn fmt<W: fmt::Write>(&self, f: &mut fmt::Formatter<W>) -> fmt::Result {
        match self {
            Twist::Plain => write!(f, "as it stands"),
            Twist::Fails(call) => write!(f, "call {call} fails"),
            Twist::Stops(NO_CALL, _) => write!(f, "stopped in no call"),
            Twist::Stops(call, 0) => write!(f, "stopped in call {call}, nothing of it done"),
            Twist::Stops(call, ALL) => write!(f, "stopped in call {call}, all of an append done"),
            Twist::Stops(call, bytes) => {
                write!(f, "stopped in call {call}, {bytes} bytes of an append done")
            }
            Twist::StopsFirm(call) => write!(f, "stopped in call {call} with what was firm"),
            Twist::Cut(bytes) => write!(f, "the input cut behind byte {bytes}"),
        }
    }
}

/// The moment at which a request begins, by the moments behind each of them: 0 is what comes before the first.
fn begin_of(marks: &[u64], request: usize) -> u64 {
    if request == 0 {
        return 0;
    }
    match marks.get(request - 1) {
        Some(mark) => *mark,
        None => NO_CALL,
    }
}

/// The call of an append: the one of this number, counted from 1, behind this moment.
fn append_of(appends: &[u64], begin: u64, number: u64) -> u64 {
    let mut left = number;
    let mut call = 0u64;
    for bytes in appends {
        if call >= begin && *bytes > 0 {
            left = left.saturating_sub(1);
            if left == 0 {
                return call;
            }
        }
        call = call.saturating_add(1);
    }
    NO_CALL
}

/// A stop in each call, and in an append with no, half and all of its bytes.
fn add_stops(twists: &mut Vec<Twist>, appends: &[u64]) -> Result<(), Fault> {
    let mut call = 0u64;
    for bytes in appends {
        twists.push(Twist::Stops(call, 0))?;
        if *bytes > 0 {
            let half = match u32::try_from(*bytes / 2) {
                Ok(half) => half,
                Err(_) => ALL,
            };
            twists.push(Twist::Stops(call, half))?;
            twists.push(Twist::Stops(call, ALL))?;
        }
        call = call.saturating_add(1);
    }
    Ok(())
}

/// The ways in which a variation plays again what made these appends: so many bytes by each call, which of most are none.
/// `marks` are the moments behind its requests, and `input` is how long the inputs of its runs are.
pub fn twists_of(
    alloc: Global,
    variation: &Line,
    appends: &[u64],
    marks: &[u64],
    input: usize,
) -> Result<Vec<Twist>, Fault> {
    let calls = appends.len() as u64;
    let mut twists = Vec::new(alloc);
    match variation.does {
        Does::EachCallFails => {
            for call in 0..calls {
                twists.push(Twist::Fails(call))?;
            }
        }
        Does::EachCallStopsFirm => {
            for call in 0..calls {
                twists.push(Twist::StopsFirm(call))?;
            }
        }
        Does::EachCallStops => add_stops(&mut twists, appends)?,
        Does::EachCutting => {
            for bytes in 1..input {
                twists.push(Twist::Cut(bytes))?;
            }
        }
        _ => twists.push(stop_of(variation, appends, marks))?,
    }
    Ok(twists)
}

/// The stop that a line says.
fn stop_of(line: &Line, appends: &[u64], marks: &[u64]) -> Twist {
    match line.does {
        Does::StopInAppend => {
            Twist::Stops(append_of(appends, 0, line.number(0)), line.number_u32(1))
        }
        Does::StopInAppendOf => {
            let begin = begin_of(marks, line.size(1));
            Twist::Stops(
                append_of(appends, begin, line.number(0)),
                line.number_u32(2),
            )
        }
        Does::StopInCallOf => {
            let begin = begin_of(marks, line.size(1));
            let call = begin.saturating_add(line.number(0).saturating_sub(1));
            Twist::Stops(call, line.number_u32(2))
        }
        _ => Twist::Stops(line.number(0), line.number_u32(1)),
    }
}
