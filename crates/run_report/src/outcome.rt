// What a run comes to.
use blue_check::fault::CheckFault;
use blue_words::fault::BlueFault;
use elem_core::line::Line;
use stream_model::outcome::EndState;

/// How a call ended.
pub enum Status {
    /// Every sink ended.
    Done,
    /// The words are not in the command's grammar.
    Usage,
    /// The blueprint's text has a fault; it is the first.
    Refused(BlueFault),
    /// The blueprint breaks a rule; it is the first, at its least place.
    Unfit(CheckFault),
    /// Every sink ended or failed, and some sink failed.
    StreamFailed,
    /// Some sink has not ended, and no event is left.
    Stalled,
    /// Some sink has not ended, an event is left, and the units are used up.
    OutOfTurns,
    /// The line with this number in the file of moves is at fault, or 0: that file is too long.
    BadTrace(u32),
    /// The stage with the first number could not make the move at the place with the second, from 0.
    Misfit(u32, u32),
    /// A file is not there, or its opening was refused.
    Missing(Line),
    /// A read of the blueprint's file failed.
    ReadFault,
    /// A write to a sink's file failed.
    WriteFault,
    /// Memory was wanting.
    NoMemory,
}

// Dropped by a call, wherever it is dropped: else each of its variants is a path of each function that drops it.
impl Drop for Status {
    fn drop(self) {
        match self {
            Status::Refused(_) => {}
            Status::Unfit(_) => {}
            Status::Missing(_) => {}
            Status::Done
            | Status::Usage
            | Status::StreamFailed
            | Status::Stalled
            | Status::OutOfTurns
            | Status::BadTrace(_)
            | Status::Misfit(_, _)
            | Status::ReadFault
            | Status::WriteFault
            | Status::NoMemory => {}
        }
    }
}

/// A sink after a run: its name, how many whole lines it wrote, and how it ended.
#[derive(Drop)]
pub struct SinkEnd {
    pub name: Line,
    pub count: u64,
    pub end: EndState,
}
