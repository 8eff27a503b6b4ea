//! What lines ask.
ghost use Rattle.std.specs.Prelude.{◌≡◌, Some, option_copied, IfOk, IfErr};
ghost use Rattle.scm_sessions.specs.Asking.{line_given, words_of, asked_by, asked_by_words, asked_data, name_in, is_comment as is_comment_text};

use crate::calls::read_call;
use crate::words::split_word;
use scm_book::Call;
use scm_cells::Name;
use std::alloc::Global;

/// What a line asks.
#[derive(Drop, Debug)]
pub(crate) enum Asked {
    /// No reply.
    Nothing,
    /// A bad line, under the name of its session where its first word is a name and it isn't too long.
    Bad(Option<Name>),
    /// A call of the session of this name.
    Good { session: Name, call: Call },
}

/// Memory was refused for what a line asks, which is under the name of this session.
#[derive(Clone, Copy, Debug, PartialEq, Eq)]
pub(crate) struct Unread {
    pub(crate) session: Name,
}

/// Whether a line is a comment.
fn is_comment(line: &[u8]) -> bool
    ensures { result ≡ is_comment_text line.now }
{
    matches!(line, [b'#', ..])
}

/// What the words of a line ask.
fn read_words(alloc: Global, line: &[u8]) -> Result<Asked, Unread>
    ensures ok { IfOk result (λ asked. asked_data asked ≡ asked_by_words (words_of line.now)) }
    ensures err { IfErr result (λ unread. name_in (asked_by_words (words_of line.now)) ≡ Some unread.session) }
{
    let Some((word, rest)) = split_word(line) else {
        return Ok(Asked::Nothing);
    };
    let Some(session) = Name::read(word) else {
        return Ok(Asked::Bad(None));
    };
    match read_call(alloc, rest) {
        Ok(Some(call)) => Ok(Asked::Good { session, call }),
        Ok(None) => Ok(Asked::Bad(Some(session))),
        Err(_) => Err(Unread { session }),
    }
}

/// What a line asks; `None` stands for a line that is too long.
pub(crate) fn read_asked(alloc: Global, line: Option<&[u8]>) -> Result<Asked, Unread>
    ensures ok { IfOk result (λ asked. asked_data asked ≡ asked_by (line_given (option_copied line.entry))) }
    ensures err { IfErr result (λ unread. name_in (asked_by (line_given (option_copied line.entry))) ≡ Some unread.session) }
{
    let Some(line) = line else {
        return Ok(Asked::Bad(None));
    };
    if is_comment(line) {
        return Ok(Asked::Nothing);
    }
    read_words(alloc, line)
}
