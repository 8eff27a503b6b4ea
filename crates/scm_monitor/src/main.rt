//! The program: it reads a script from standard input and writes the replies to standard output.
#![tactic(auto)]

ghost use Rattle.std.specs.Prelude.{◌≡◌, false, IfOk};
ghost use Rattle.scm_monitor.specs.Program.{IsStatusOfRun};
ghost use Rattle.scm_sessions.specs.Script.{has_failed, inner_of};

mod command_line;
mod ending;
mod fault;
mod settings;
mod switches;
mod words;

use clap::Error;
use clap::error::ErrorKind;
use command_line::options;
use ending::{AUDIT_STATUS, end_run, end_status};
use fault::{fault_status, fault_text};
use scm_book::Book;
use scm_expand::FreeGate;
use scm_sessions::{
    Findings, Port, RunFault, run_each, run_script, run_with_workers, write_journal,
};
use scm_shared::BookToken;
use settings::Options;
use std::alloc::Global;
use std::io::{self, BufWriter, Eprint, Print, Read, Write};
use std::marker::Brand;
use std::process::ExitCode;
use std::rt::Runtime;
use std::sync::Wait;
use std::thread::Threads;
use words::read_words;

/// The exit status of a command line that is refused.
const USAGE_STATUS: u8 = 2;

/// How many bytes of replies are gathered for one write.
const WRITTEN_AT_ONCE: usize = 65_536;

fn main(rt: HostRuntime) -> ExitCode {
    match read_words(&rt) {
        Ok(words) => follow(&rt, words.as_slice()),
        Err(error) => {
            if error.kind() == io::ErrorKind::OutOfMemory {
                return fail(&rt, &RunFault::NoMemory);
            }
            let _ = eprintln!(rt; "scm_monitor: a word of the command line is not UTF-8");
            ExitCode::from(USAGE_STATUS)
        }
    }
}

// Does what the words after the program's name ask for.
fn follow<H: Runtime + AllocGlobal + Threads + Wait + Sync>(rt: &H, words: &[String]) -> ExitCode {
    let alloc = rt.alloc();
    let Ok(texts) = words.iter().map(String::as_str).collect::<Vec<&str>>(alloc) else {
        return fail(rt, &RunFault::NoMemory);
    };
    match options(alloc, texts.as_slice()) {
        Ok(options) => match run(rt, options) {
            Ok(status) => status,
            Err(fault) => fail(rt, &fault),
        },
        Err(error) => explain(rt, &error),
    }
}

// Writes the help, or why the command line is refused.
fn explain(rt: &(impl Print + Eprint), error: &Error) -> ExitCode {
    if error.kind() == ErrorKind::OutOfMemory {
        return fail(rt, &RunFault::NoMemory);
    }
    let printed = error.print(rt);
    if error.use_stderr() {
        return ExitCode::from(USAGE_STATUS);
    }
    match printed {
        Ok(()) => ExitCode::SUCCESS,
        Err(_) => fail(rt, &RunFault::WriteFailed),
    }
}

// Names a fault on standard error.
fn fail(rt: &impl Eprint, fault: &RunFault) -> ExitCode {
    let text = fault_text(fault);
    let _ = eprintln!(rt; "{text}");
    ExitCode::from(fault_status(fault))
}

// Runs the script on standard input, and tells the exit status. Replies go through a buffer, which is flushed before more
// is read.
fn run<H: Runtime + AllocGlobal + Threads + Wait + Sync>(
    rt: &H,
    options: Options,
) -> Result<ExitCode, RunFault> {
    let Ok(output) = BufWriter::with_capacity(rt.alloc(), WRITTEN_AT_ONCE, io::writer(rt)) else {
        return Err(RunFault::NoMemory);
    };
    run_between(
        rt,
        options,
        &mut Port::new(rt.reader()),
        &mut Port::new(output),
    )
}

// Runs the script from the reader to the writer as the options say.
fn run_between<H: Eprint + AllocGlobal + Threads + Wait + Sync, R: Read, W: Write>(
    rt: &H,
    options: Options,
    reader: &mut Port<R>,
    writer: &mut Port<W>,
) -> Result<ExitCode, RunFault>
    requires reads { has_failed reader.old ≡ false }
    requires writes { has_failed writer.old ≡ false }
{
    let mut findings = Findings::new();
    let status = if options.each || options.workers > 0 {
        run_shared(rt, options, reader, writer, &mut findings)?
    } else {
        run_alone(rt.alloc(), options, reader, writer, &mut findings)?
    };
    tell(rt, options, status, &findings);
    Ok(ExitCode::from(status))
}

// Says on standard error that the audit disagreed, or else, where a check is asked for, which line was refused first.
fn tell(rt: &impl Eprint, options: Options, status: u8, findings: &Findings) {
    if status == AUDIT_STATUS {
        let _ = eprintln!(rt; "scm_monitor: the journal is not what the sessions were answered");
        return;
    }
    if !options.check {
        return;
    }
    if let Some(line) = findings.refused() {
        let (number, refusal) = (line.number, line.refusal);
        let _ = eprintln!(rt;
            "scm_monitor: line {number}: refused {} {}",
            refusal.number(),
            refusal.text()
        );
    }
}

// Runs the script on this thread alone, and writes the journal where it is asked for. Gives the exit status.
fn run_alone<R: Read, W: Write>(
    alloc: Global,
    options: Options,
    reader: &mut Port<R>,
    writer: &mut Port<W>,
    findings: &mut Findings,
) -> Result<u8, RunFault>
    requires reads { has_failed reader.old ≡ false }
    requires writes { has_failed writer.old ≡ false }
{
    let (book, names) = run_script(alloc, Book::new(alloc), reader, writer, findings)?;
    if options.journal {
        write_journal(writer, &book, names.as_slice())?;
    }
    Ok(end_status(true, options.check, findings))
}

// The same beside workers, or with a thread for each session. The status is that of the run's own audit.
fn run_shared<H: AllocGlobal + Threads + Wait + Sync, R: Read, W: Write>(
    rt: &H,
    options: Options,
    reader: &mut Port<R>,
    writer: &mut Port<W>,
    findings: &mut Findings,
) -> Result<u8, RunFault>
    requires reads { has_failed reader.old ≡ false }
    requires writes { has_failed writer.old ≡ false }
    ensures told { IfOk result (IsStatusOfRun (R.remaining (inner_of reader.old)) (R.remaining (inner_of reader.new))
        (W.contents (inner_of writer.old)) options findings.new) }
{
    let alloc = rt.alloc();
    let token = BookToken::new(alloc)?;
    let workers = usize::from(options.workers);
    let ended = if options.each {
        run_each::<Brand, R, W, FreeGate, H>(
            rt, alloc, token, reader, writer, findings, &FreeGate, workers,
        )?
    } else {
        run_with_workers::<Brand, R, W, FreeGate, H>(
            rt, alloc, token, reader, writer, findings, &FreeGate, workers,
        )?
    };
    end_run(writer, ended, options, findings)
}
