//! The words of a line.
ghost use Rattle.std.specs.Prelude.{◌≡◌, ◌<◌, [], ◌∷◌, length, not, position, IfSome, MatchOption};
ghost use Rattle.scm_sessions.specs.Asking.{is_blank, words_of, name_of_line};

use scm_cells::Name;

/// Whether a byte is a space or a tab.
fn is_blank_byte(byte: u8) -> bool
    ensures { result ≡ is_blank byte }
{
    byte == b' ' || byte == b'\t'
}

/// Where the first blank stands.
fn first_blank(line: &[u8]) -> Option<usize>
    ensures place { result ≡ position is_blank line.now }
    ensures within { IfSome result (λ place. place < length line.now) }
{
    line.iter().position(|&byte| is_blank_byte(byte))
}

/// Where the first byte stands that is no blank.
fn first_of_word(line: &[u8]) -> Option<usize>
    ensures place { result ≡ position (λ b. not (is_blank b)) line.now }
    ensures within { IfSome result (λ place. place < length line.now) }
{
    line.iter().position(|&byte| !is_blank_byte(byte))
}

/// The first word of a line and what stands behind it, if the line has a word.
pub(crate) fn split_word(line: &[u8]) -> Option<(&[u8], &[u8])>
    ensures words { MatchOption result (words_of line.now ≡ [])
        (λ split. words_of line.now ≡ split.0.now ∷ words_of split.1.now) }
    ensures shorter { IfSome result (λ split. length split.1.now < length line.now) }
{
    let line = &line[first_of_word(line)?..];
    let end = first_blank(line).unwrap_or(line.len());
    Some(line.split_at(end))
}

/// The first word of a line where it is a name: who a line is from.
pub fn line_name(line: &[u8]) -> Option<Name>
    ensures { result ≡ name_of_line line.now }
{
    let (word, _) = split_word(line)?;
    Name::read(word)
}
