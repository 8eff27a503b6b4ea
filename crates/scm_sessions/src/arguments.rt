//! What stands after a command: a trace's name with a count or a mark, an access, and the declarations of cells.
ghost use Rattle.std.specs.Prelude.{◌≡◌, ◌==◌, ◌<◌, length, map, position, option_map, IfSome, IfOk};
ghost use Rattle.scm_lowering.specs.Accesses.{access_of_words};
ghost use Rattle.scm_sessions.specs.Asking.{words_of, named_count, named_alone, named_mark, width_of_letter, declaration_of, declaration_of_word, declarations_of_words};

use crate::words::split_word;
use scm_book::Decl;
use scm_cells::{Name, Width, read_count, read_initial};
use scm_lowering::{Access, read_access};
use scm_sequences::NoMemory;
use std::alloc::Global;

/// `T n`: a trace's name and a count.
pub(crate) fn read_name_and_count(line: &[u8]) -> Option<(Name, u64)>
    ensures { result ≡ named_count (words_of line.now) }
{
    let (trace, rest) = split_word(line)?;
    let (count, rest) = split_word(rest)?;
    if split_word(rest).is_some() {
        return None;
    }
    Some((Name::read(trace)?, read_count(count)?))
}

/// `T`: a trace's name alone.
pub(crate) fn read_name_alone(line: &[u8]) -> Option<Name>
    ensures { result ≡ named_alone (words_of line.now) }
{
    let (trace, rest) = split_word(line)?;
    if split_word(rest).is_some() {
        return None;
    }
    Name::read(trace)
}

/// `T` or `T m`: a trace's name, and perhaps a mark.
pub(crate) fn read_name_and_mark(line: &[u8]) -> Option<(Name, Option<u64>)>
    ensures { result ≡ named_mark (words_of line.now) }
{
    let (trace, rest) = split_word(line)?;
    let Some((mark, rest)) = split_word(rest) else {
        return Some((Name::read(trace)?, None));
    };
    if split_word(rest).is_some() {
        return None;
    }
    Some((Name::read(trace)?, Some(read_count(mark)?)))
}

/// The access that these words are.
fn access_of(words: &[&[u8]]) -> Option<Access>
    ensures { result ≡ access_of_words (map (λ word. word.now) words.now) }
{
    read_access(words).ok()
}

/// The access that the words of a line are.
#[tactic(auto, unfolding(scm_lowering::specs::Accesses::access_of_words))]
pub(crate) fn read_access_words(line: &[u8]) -> Option<Access>
    ensures { result ≡ access_of_words (words_of line.now) }
{
    let (word, rest) = split_word(line)?;
    let (cell, rest) = split_word(rest)?;
    let (first, rest) = split_word(rest)?;
    let Some((second, rest)) = split_word(rest) else {
        return access_of(&[word, cell, first]);
    };
    if split_word(rest).is_some() {
        return None;
    }
    access_of(&[word, cell, first, second])
}

/// The width that a letter stands for.
fn read_width(letter: u8) -> Option<Width>
    ensures { result ≡ width_of_letter letter }
{
    match letter {
        b'w' => Some(Width::W),
        b'd' => Some(Width::D),
        _ => None,
    }
}

/// The cell of this name, with what stands after its colon: the letter of its width, an equals sign and what it holds at first.
fn declaration(name: &[u8], rest: &[u8]) -> Option<Decl>
    ensures { result ≡ declaration_of name.now rest.now }
{
    let [letter, equals, initial @ ..] = rest else {
        return None;
    };
    if *equals != b'=' {
        return None;
    }
    Some(Decl {
        name: Name::read(name)?,
        width: read_width(*letter)?,
        initial: read_initial(initial)?,
    })
}

/// Where the first colon of a word stands.
fn colon_in(word: &[u8]) -> Option<usize>
    ensures place { result ≡ position (λ b. b == 58) word.now }
    ensures within { IfSome result (λ place. place < length word.now) }
{
    word.iter().position(|&byte| byte == b':')
}

/// The cell that a word declares, which is cut at its first colon.
fn read_declaration(word: &[u8]) -> Option<Decl>
    ensures { result ≡ declaration_of_word word.now }
{
    let colon = colon_in(word)?;
    declaration(&word[..colon], &word[colon + 1..])
}

/// The cells that the words of a line declare, or `None` where a word declares none.
pub(crate) fn read_declarations(alloc: Global, line: &[u8]) -> Result<Option<Vec<Decl>>, NoMemory>
    ensures { IfOk result (λ decls. option_map (λ decls. decls.items) decls ≡ declarations_of_words (words_of line.now)) }
{
    let mut decls = Vec::new(alloc);
    let mut rest = line;
    while let Some((word, after)) = split_word(rest) {
        let Some(decl) = read_declaration(word) else {
            return Ok(None);
        };
        decls.push(decl)?;
        rest = after;
    }
    Ok(Some(decls))
}
