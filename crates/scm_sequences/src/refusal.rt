//! The refusals.
ghost use Rattle.std.specs.Prelude.{◌≡◌};
ghost use Rattle.scm_sequences.specs.Sequences.{refusal_number, refusal_text};

/// Why a call was refused, in the order of the refusals' numbers. The table is this project's profile.
#[derive(Clone, Copy, Debug, PartialEq, Eq, Hash)]
pub enum Refusal {
    BadLine,
    NoSuchTrace,
    NameTaken,
    TooManyTraces,
    BadDeclaration,
    NoSuchProcess,
    ProcessTaken,
    NotClaimed,
    NotOwner,
    NoSuchCell,
    WidthMismatch,
    ValueOutOfRange,
    SequenceFull,
    NoSuchMark,
    TooManyMarks,
    BadBudget,
    JournalFull,
    NoMemory,
    TooManySessions,
}

impl Refusal {
    /// The number of this refusal, from 1 to 19.
    pub fn number(self) -> u8
        ensures { result ≡ refusal_number self }
    {
        match self {
            Refusal::BadLine => 1,
            Refusal::NoSuchTrace => 2,
            Refusal::NameTaken => 3,
            Refusal::TooManyTraces => 4,
            Refusal::BadDeclaration => 5,
            Refusal::NoSuchProcess => 6,
            Refusal::ProcessTaken => 7,
            Refusal::NotClaimed => 8,
            Refusal::NotOwner => 9,
            Refusal::NoSuchCell => 10,
            Refusal::WidthMismatch => 11,
            Refusal::ValueOutOfRange => 12,
            Refusal::SequenceFull => 13,
            Refusal::NoSuchMark => 14,
            Refusal::TooManyMarks => 15,
            Refusal::BadBudget => 16,
            Refusal::JournalFull => 17,
            Refusal::NoMemory => 18,
            Refusal::TooManySessions => 19,
        }
    }

    /// The words of this refusal, joined by dashes.
    pub fn text(self) -> &'static str
        ensures { result.now ≡ refusal_text self }
    {
        match self {
            Refusal::BadLine => "bad-line",
            Refusal::NoSuchTrace => "no-such-trace",
            Refusal::NameTaken => "name-taken",
            Refusal::TooManyTraces => "too-many-traces",
            Refusal::BadDeclaration => "bad-declaration",
            Refusal::NoSuchProcess => "no-such-process",
            Refusal::ProcessTaken => "process-taken",
            Refusal::NotClaimed => "not-claimed",
            Refusal::NotOwner => "not-owner",
            Refusal::NoSuchCell => "no-such-cell",
            Refusal::WidthMismatch => "width-mismatch",
            Refusal::ValueOutOfRange => "value-out-of-range",
            Refusal::SequenceFull => "sequence-full",
            Refusal::NoSuchMark => "no-such-mark",
            Refusal::TooManyMarks => "too-many-marks",
            Refusal::BadBudget => "bad-budget",
            Refusal::JournalFull => "journal-full",
            Refusal::NoMemory => "no-memory",
            Refusal::TooManySessions => "too-many-sessions",
        }
    }
}
