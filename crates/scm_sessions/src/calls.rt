//! The calls that lines ask for.
ghost use Rattle.std.specs.Prelude.{◌≡◌, ◌≢◌, ◌⊎◌, ℕ, List, None, option_map, IfOk, IfErr, MatchOption};
ghost use Rattle.scm_sequences.specs.declared.refusal.Refusal.TheVariants.{BadLine, NoMemory as RefusedMemory};
ghost use Rattle.scm_book.specs.Machine.{CallData, call_data, opens};
ghost use Rattle.scm_sessions.specs.Asking.{line_of_text, words_of, good, asked_by, declarations_of_words, open_of_words, report_of_words, claim_of_words, release_of_words, back_of_words, raise_of_words, show_of_words, mark_of_words, close_of_words, ask_of_words, why_of_words, cycle_of_words, list_of_words, call_of, call_of_words};

use crate::arguments::{
    read_access_words, read_declarations, read_name_alone, read_name_and_count, read_name_and_mark,
};
use crate::asking::{Asked, read_asked};
use crate::commands::{Command, read_command};
use crate::words::split_word;
use scm_book::Call;
use scm_cells::{Name, read_count};
use scm_sequences::{LONGEST_LINE, NoMemory, Refusal};
use std::alloc::Global;

/// `T procs budget`, and what stands behind them.
fn read_opening(line: &[u8]) -> Option<(Name, u64, u64, &[u8])>
    ensures { MatchOption result (open_of_words (words_of line.now) ≡ None)
        (λ opening. open_of_words (words_of line.now) ≡ option_map
        (λ decls. opens opening.0 opening.1 opening.2 decls) (declarations_of_words (words_of opening.3.now))) }
{
    let (trace, rest) = split_word(line)?;
    let (procs, rest) = split_word(rest)?;
    let (budget, rest) = split_word(rest)?;
    Some((
        Name::read(trace)?,
        read_count(procs)?,
        read_count(budget)?,
        rest,
    ))
}

/// `T procs budget DECL ..`
fn read_open(alloc: Global, line: &[u8]) -> Result<Option<Call>, NoMemory>
    ensures { IfOk result (λ call. option_map call_data call ≡ open_of_words (words_of line.now)) }
{
    let Some((name, procs, budget, rest)) = read_opening(line) else {
        return Ok(None);
    };
    let Some(cells) = read_declarations(alloc, rest)? else {
        return Ok(None);
    };
    Ok(Some(Call::OpenTrace {
        name,
        procs,
        budget,
        cells,
    }))
}

/// `T p ACCESS`
fn read_report(line: &[u8]) -> Option<Call>
    ensures { option_map call_data result ≡ report_of_words (words_of line.now) }
{
    let (trace, rest) = split_word(line)?;
    let (process, rest) = split_word(rest)?;
    Some(Call::Report {
        name: Name::read(trace)?,
        process: read_count(process)?,
        access: read_access_words(rest)?,
    })
}

/// `T p`
fn read_claim(line: &[u8]) -> Option<Call>
    ensures { option_map call_data result ≡ claim_of_words (words_of line.now) }
{
    let (name, process) = read_name_and_count(line)?;
    Some(Call::ClaimProcess { name, process })
}

/// `T p`
fn read_release(line: &[u8]) -> Option<Call>
    ensures { option_map call_data result ≡ release_of_words (words_of line.now) }
{
    let (name, process) = read_name_and_count(line)?;
    Some(Call::ReleaseProcess { name, process })
}

/// `T m`
fn read_back(line: &[u8]) -> Option<Call>
    ensures { option_map call_data result ≡ back_of_words (words_of line.now) }
{
    let (name, mark) = read_name_and_count(line)?;
    Some(Call::GoBack { name, mark })
}

/// `T n`
fn read_raise(line: &[u8]) -> Option<Call>
    ensures { option_map call_data result ≡ raise_of_words (words_of line.now) }
{
    let (name, budget) = read_name_and_count(line)?;
    Some(Call::RaiseBudget { name, budget })
}

/// `T p`
fn read_show(line: &[u8]) -> Option<Call>
    ensures { option_map call_data result ≡ show_of_words (words_of line.now) }
{
    let (name, process) = read_name_and_count(line)?;
    Some(Call::ShowOps { name, process })
}

/// `T`
fn read_mark(line: &[u8]) -> Option<Call>
    ensures { option_map call_data result ≡ mark_of_words (words_of line.now) }
{
    let name = read_name_alone(line)?;
    Some(Call::SetMark { name })
}

/// `T`
fn read_close(line: &[u8]) -> Option<Call>
    ensures { option_map call_data result ≡ close_of_words (words_of line.now) }
{
    let name = read_name_alone(line)?;
    Some(Call::CloseTrace { name })
}

/// `T` or `T m`
fn read_ask(line: &[u8]) -> Option<Call>
    ensures { option_map call_data result ≡ ask_of_words (words_of line.now) }
{
    let (name, mark) = read_name_and_mark(line)?;
    Some(Call::Ask { name, mark })
}

/// `T` or `T m`
fn read_why(line: &[u8]) -> Option<Call>
    ensures { option_map call_data result ≡ why_of_words (words_of line.now) }
{
    let (name, mark) = read_name_and_mark(line)?;
    Some(Call::Why { name, mark })
}

/// `T` or `T m`
fn read_cycle(line: &[u8]) -> Option<Call>
    ensures { option_map call_data result ≡ cycle_of_words (words_of line.now) }
{
    let (name, mark) = read_name_and_mark(line)?;
    Some(Call::Cycle { name, mark })
}

/// No further word.
fn read_list(line: &[u8]) -> Option<Call>
    ensures { option_map call_data result ≡ list_of_words (words_of line.now) }
{
    if split_word(line).is_some() {
        None
    } else {
        Some(Call::ListTraces)
    }
}

/// The call of a command with the words of this line after it, if there is one.
fn read_arguments(alloc: Global, command: Command, line: &[u8]) -> Result<Option<Call>, NoMemory>
    ensures { IfOk result (λ call. option_map call_data call ≡ call_of command (words_of line.now)) }
{
    Ok(match command {
        Command::OpenTrace => read_open(alloc, line)?,
        Command::ClaimProcess => read_claim(line),
        Command::ReleaseProcess => read_release(line),
        Command::Report => read_report(line),
        Command::SetMark => read_mark(line),
        Command::GoBack => read_back(line),
        Command::RaiseBudget => read_raise(line),
        Command::Ask => read_ask(line),
        Command::Why => read_why(line),
        Command::Cycle => read_cycle(line),
        Command::ShowOps => read_show(line),
        Command::ListTraces => read_list(line),
        Command::CloseTrace => read_close(line),
    })
}

/// The call that the words after the session's name are, if they are one.
pub(crate) fn read_call(alloc: Global, line: &[u8]) -> Result<Option<Call>, NoMemory>
    ensures { IfOk result (λ call. option_map call_data call ≡ call_of_words (words_of line.now)) }
{
    let Some((word, arguments)) = split_word(line) else {
        return Ok(None);
    };
    let Some(command) = read_command(word) else {
        return Ok(None);
    };
    read_arguments(alloc, command, arguments)
}

/// The session's name and the call of a line's text: the line without its line feed and the carriage return before it.
/// Refused `BadLine` where the text is longer than `LONGEST_LINE` bytes or asks for no call, or `NoMemory`.
pub fn read_line(alloc: Global, line: &[u8]) -> Result<(Name, Call), Refusal>
    ensures ok { IfOk result (λ asked. asked_by (line_of_text line.now) ≡ good asked.0 (call_data asked.1)) }
    ensures err { IfErr result (λ refusal.
        ((refusal ≡ BadLine) × ((name : List ℕ) (call : CallData) → asked_by (line_of_text line.now) ≢ good name call))
        ⊎ (refusal ≡ RefusedMemory)) }
{
    if line.len() > LONGEST_LINE {
        return Err(Refusal::BadLine);
    }
    let Ok(asked) = read_asked(alloc, Some(line)) else {
        return Err(Refusal::NoMemory);
    };
    match asked {
        Asked::Good { session, call } => Ok((session, call)),
        Asked::Nothing | Asked::Bad(_) => Err(Refusal::BadLine),
    }
}
