//! What is wrong with a line: at which column, in which field, and why.
ghost use Rattle.std.specs.Prelude.{◌≡◌};
ghost use Rattle.timer_script.specs.Diagnosis.{field_words, reason_words};

use std::fmt;
use std::fmt::Display;

/// A field of a line, after its word.
#[derive(Clone, Copy, Debug, PartialEq, Eq)]
pub enum Field {
    Client,
    Number,
    Serial,
    Tick,
    Deadline,
    Interval,
    Action,
    Count,
}

/// Why bytes are not the line of an event.
#[derive(Clone, Copy, Debug, PartialEq, Eq)]
pub enum LineReason {
    /// The input ends within the line.
    NoLineEnd,
    EmptyLine,
    CarriageReturn,
    /// The three bytes that some editors put before a text.
    ByteOrderMark,
    Tab,
    /// A space at the start or the end of the line, or after another.
    Space,
    UnknownWord,
    /// The line ends before this field.
    MissingField,
    TooManyFields,
    NotANumber,
    /// A digit follows a zero at the start of a number.
    LeadingZero,
    /// With this digit a number is above its greatest value.
    OutOfRange,
    /// With this digit there are no ticks, or too many.
    OutOfTicks,
}

/// What is wrong with a line.
#[derive(Clone, Copy, Debug, PartialEq, Eq)]
pub struct LineFault {
    /// Where the line goes wrong, in bytes and counted from 1. One past its end if the line has no end.
    pub column: usize,
    /// The field that goes wrong there, if it is in one.
    pub field: Option<Field>,
    pub reason: LineReason,
}

impl Field {
    /// Its name in the documents.
    pub fn words(self) -> &'static str
        ensures { result.now ≡ field_words self }
    {
        match self {
            Field::Client => "client",
            Field::Number => "number",
            Field::Serial => "serial",
            Field::Tick => "tick",
            Field::Deadline => "deadline",
            Field::Interval => "interval",
            Field::Action => "action",
            Field::Count => "count",
        }
    }
}

impl LineReason {
    /// The reason in words.
    pub fn words(self) -> &'static str
        ensures { result.now ≡ reason_words self }
    {
        match self {
            // made by tools/facts: words of check
            LineReason::NoLineEnd => "no line end",
            LineReason::EmptyLine => "empty line",
            LineReason::CarriageReturn => "carriage return",
            LineReason::ByteOrderMark => "byte order mark",
            LineReason::Tab => "tab",
            LineReason::Space => "space too many",
            LineReason::UnknownWord => "unknown word",
            LineReason::MissingField => "missing field",
            LineReason::TooManyFields => "too many fields",
            LineReason::NotANumber => "not a number",
            LineReason::LeadingZero => "leading zero",
            LineReason::OutOfRange => "out of range 0 to 1152921504606846975",
            LineReason::OutOfTicks => "out of range 1 to 1000000",
        }
    }
}

impl Display for LineFault {
    fn fmt<W: fmt::Write>(&self, f: &mut fmt::Formatter<W>) -> fmt::Result {
        write!(f, "column {}: ", self.column)?;
        if let Some(field) = self.field {
            write!(f, "{}: ", field.words())?;
        }
        f.write_str(self.reason.words())
    }
}
