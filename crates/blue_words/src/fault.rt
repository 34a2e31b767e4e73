// Why a text is no blueprint.
ghost use Rattle.std.specs.Prelude.{◌≡◌};
ghost use Rattle.blue_words.specs.Fault.{number_of_kind};

use std::alloc::AllocError;

/// What is wrong with a text.
#[derive(Clone, Copy)]
pub enum BlueKind {
    /// The first line that says something is not the version line, or no line says something.
    BadVersion,
    /// A line has not the form of a declaration.
    BadLine,
    /// Where a name or a file name is to stand, a word that is none.
    BadName,
    /// Where a number is to stand, a word that is none, or one out of its range.
    BadNumber,
    /// The text or a line has too many bytes.
    TooLong,
    /// More is declared than the limits allow.
    TooMany,
}

/// A version of the language, which the first line of a text names.
#[derive(Clone, Copy)]
pub enum Version {
    /// Without modules.
    First,
    /// With modules, and with what they and the text set for the lanes and the stages in them.
    Second,
}

/// The first fault of a text: what it is, and in which line, from 1; 0 where no line is to blame.
#[derive(Clone, Copy)]
pub struct BlueFault {
    /// What is wrong.
    pub kind: BlueKind,
    /// The line's number.
    pub line: u32,
}

/// Why no value was read of the words of a line.
#[derive(Clone, Copy)]
pub enum FormEnd {
    /// The words have not the form.
    BadLine,
    /// Memory was refused.
    NoMemory,
}

/// The value of a place of a line, or what is wrong there: `BadName` or `BadNumber`.
pub type PlaceValue<T> = Result<T, BlueKind>;

/// The number, from 1 to 6, by which reports name a fault.
pub fn kind_number(kind: BlueKind) -> u8
    ensures { result ≡ number_of_kind kind }
{
    match kind {
        BlueKind::BadVersion => 1,
        BlueKind::BadLine => 2,
        BlueKind::BadName => 3,
        BlueKind::BadNumber => 4,
        BlueKind::TooLong => 5,
        BlueKind::TooMany => 6,
    }
}

impl From<AllocError> for FormEnd {
    ghost use Rattle.blue_words.specs.declared.fault.FormEnd.TheVariants as ended;

    ghost from_gives = { λ _ e. e ≡ ended.NoMemory };

    fn from(_: AllocError) -> FormEnd {
        FormEnd::NoMemory
    }
}
