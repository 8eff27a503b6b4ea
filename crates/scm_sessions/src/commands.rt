//! The commands of lines.
ghost use Rattle.std.specs.Prelude.{◌≡◌};
ghost use Rattle.scm_sessions.specs.Asking.{is_word as is_same_word, command_of_word};

/// What the word after the session's name asks for.
#[derive(Clone, Copy, Debug, PartialEq, Eq)]
pub(crate) enum Command {
    OpenTrace,
    ClaimProcess,
    ReleaseProcess,
    Report,
    SetMark,
    GoBack,
    RaiseBudget,
    Ask,
    Why,
    Cycle,
    ShowOps,
    ListTraces,
    CloseTrace,
}

/// Whether a word is this text.
fn is_word(word: &[u8], text: &str) -> bool
    ensures { result ≡ is_same_word word.now text.now }
{
    word == text.as_bytes()
}

/// The command that a word is, if it is one.
pub(crate) fn read_command(word: &[u8]) -> Option<Command>
    ensures { result ≡ command_of_word word.now }
{
    if is_word(word, "open") {
        Some(Command::OpenTrace)
    } else if is_word(word, "claim") {
        Some(Command::ClaimProcess)
    } else if is_word(word, "release") {
        Some(Command::ReleaseProcess)
    } else if is_word(word, "do") {
        Some(Command::Report)
    } else if is_word(word, "mark") {
        Some(Command::SetMark)
    } else if is_word(word, "back") {
        Some(Command::GoBack)
    } else if is_word(word, "raise") {
        Some(Command::RaiseBudget)
    } else if is_word(word, "ask") {
        Some(Command::Ask)
    } else if is_word(word, "why") {
        Some(Command::Why)
    } else if is_word(word, "cycle") {
        Some(Command::Cycle)
    } else if is_word(word, "show") {
        Some(Command::ShowOps)
    } else if is_word(word, "list") {
        Some(Command::ListTraces)
    } else if is_word(word, "close") {
        Some(Command::CloseTrace)
    } else {
        None
    }
}
