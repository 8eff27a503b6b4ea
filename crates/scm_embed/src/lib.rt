//! The monitor as a static library for C: `include/scm.h` tells its callers what each export answers, and what they owe.
#![tactic(auto)]

mod answerer;
mod calls;
mod codes;
mod evidence;
mod lines;
mod names;
mod opening;
mod slot;

ghost use Rattle.std.specs.Prelude.{◌≡◌, ◌≢◌, None, Some, is_some};
ghost use Rattle.std.specs.Option.{option_map};
ghost use Rattle.scm_embed.specs.Exports.{CallsAt, OpensAt, ReportsAt, HoldsAnswer, GivesText, KeepsAll, MakesHeld, OnHeld};
ghost use Rattle.scm_embed.specs.Evidence.{CountsAt, NamesAt, ReadsAt};

use answerer::Answerer;
use codes::{CLOSED, DONE, NO_MEMORY, NO_ROOM};
use opening::Cell;
use slot::Slot;
use std::alloc::Global;

/// A monitor, or none: all zeros is none.
#[repr(C)]
#[derive(Drop)]
pub struct Monitor {
    slot: Slot,
    live: bool,
    ghost held: { is_some slot.value ≡ live },
}

impl Monitor {
    /// What it holds, which is not there any more.
    fn take(&mut self, alloc: Global) -> Option<Box<Answerer>>
        ensures taken { self.old.slot.value ≡ option_map (λ answerer. answerer.value) result }
        ensures left { self.new.slot.value ≡ None }
    {
        if !self.live {
            return None;
        }
        let empty = Monitor {
            slot: Slot::empty(alloc),
            live: false,
        };
        let Monitor { slot, .. } = std::mem::replace(self, empty);
        Some(slot.into_box())
    }

    /// Holds this.
    fn put(&mut self, answerer: Box<Answerer>)
        requires none { self.old.slot.value ≡ None }
        ensures held { self.new.slot.value ≡ Some answerer.value }
    {
        *self = Monitor {
            slot: Slot::of(answerer),
            live: true,
        };
    }
}

/// Copies the text of the last answer where it fits.
fn copy_text(answerer: &mut Answerer, out: &mut [u8], needed: &mut usize) -> u32
    ensures kept { KeepsAll answerer.old answerer.new }
    ensures text { GivesText answerer.new out.old out.new needed.old needed.new result }
{
    if answerer.fetch().is_err() {
        return NO_MEMORY;
    }
    let len = answerer.text.len();
    *needed = len;
    if len > out.len() {
        return NO_ROOM;
    }
    out[..len].copy_from_slice(answerer.text.as_slice());
    DONE
}

/// Makes a monitor that no session has entered, where there is none.
#[unsafe(no_mangle)]
pub extern "C" fn scm_make(alloc: Global, m: &mut Monitor) -> u32
    ensures { MakesHeld m.old.slot.value result m.new.slot.value }
{
    if m.live {
        return CLOSED;
    }
    match Box::new(alloc, Answerer::new(alloc)) {
        Ok(answerer) => {
            m.put(answerer);
            DONE
        }
        Err(_) => NO_MEMORY,
    }
}

/// Frees the monitor, if there is one.
#[unsafe(no_mangle)]
pub extern "C" fn scm_free(alloc: Global, m: &mut Monitor)
    ensures { m.new.slot.value ≡ None }
{
    drop(m.take(alloc));
}

/// Answers a line and copies its reply. Where the room is too small, or memory for the text is refused, `scm_text` gives it.
#[unsafe(no_mangle)]
pub extern "C" fn scm_line(
    alloc: Global,
    m: &mut Monitor,
    line: &[u8],
    out: &mut [u8],
    needed: &mut usize,
) -> u32
    ensures answered { OnHeld m.old.slot.value result m.new.slot.value (λ before after.
        HoldsAnswer before line.now after × GivesText after out.old out.new needed.old needed.new result) }
    ensures closed { m.old.slot.value ≡ None → (out.new ≡ out.old) × (needed.new ≡ needed.old) }
{
    let Some(mut answerer) = m.take(alloc) else {
        return CLOSED;
    };
    answerer.read(line);
    let code = copy_text(&mut answerer, out, needed);
    m.put(answerer);
    code
}

/// Copies the text of the last answer.
#[unsafe(no_mangle)]
pub extern "C" fn scm_text(
    alloc: Global,
    m: &mut Monitor,
    out: &mut [u8],
    needed: &mut usize,
) -> u32
    ensures text { OnHeld m.old.slot.value result m.new.slot.value (λ before after.
        KeepsAll before after × GivesText after out.old out.new needed.old needed.new result) }
    ensures closed { m.old.slot.value ≡ None → (out.new ≡ out.old) × (needed.new ≡ needed.old) }
{
    let Some(mut answerer) = m.take(alloc) else {
        return CLOSED;
    };
    let code = copy_text(&mut answerer, out, needed);
    m.put(answerer);
    code
}

/// Gives a name its number.
#[unsafe(no_mangle)]
pub extern "C" fn scm_name(alloc: Global, m: &mut Monitor, word: &[u8], number: &mut usize) -> u32
    ensures named { OnHeld m.old.slot.value result m.new.slot.value (λ before after.
        NamesAt before word.now result number.new after) }
    ensures other { result ≢ DONE → number.new ≡ number.old }
{
    let Some(mut answerer) = m.take(alloc) else {
        return CLOSED;
    };
    let code = answerer.number_of(word, number);
    m.put(answerer);
    code
}

/// Opens a trace: session, trace and cells by the numbers of their names.
#[unsafe(no_mangle)]
pub extern "C" fn scm_open_trace(
    alloc: Global,
    m: &mut Monitor,
    session: usize,
    trace: usize,
    procs: u64,
    budget: u64,
    cells: &[Cell],
) -> u32
    ensures { OnHeld m.old.slot.value result m.new.slot.value (λ before after.
        OpensAt before session trace procs budget cells.now result after) }
{
    let Some(mut answerer) = m.take(alloc) else {
        return CLOSED;
    };
    let code = answerer.open(session, trace, procs, budget, cells);
    m.put(answerer);
    code
}

/// Reports an access: session, trace and cell by the numbers of their names, the access by that of its kind.
#[unsafe(no_mangle)]
pub extern "C" fn scm_report(
    alloc: Global,
    m: &mut Monitor,
    session: usize,
    trace: usize,
    process: u64,
    kind: u32,
    cell: usize,
    first: u64,
    second: u64,
) -> u32
    ensures { OnHeld m.old.slot.value result m.new.slot.value (λ before after.
        ReportsAt before session trace process kind cell first second result after) }
{
    let Some(mut answerer) = m.take(alloc) else {
        return CLOSED;
    };
    let code = answerer.report(session, trace, process, kind, cell, first, second);
    m.put(answerer);
    code
}

/// Makes another call about a trace, of the kind of this number.
#[unsafe(no_mangle)]
pub extern "C" fn scm_call(
    alloc: Global,
    m: &mut Monitor,
    session: usize,
    trace: usize,
    kind: u32,
    number: u64,
) -> u32
    ensures { OnHeld m.old.slot.value result m.new.slot.value (λ before after.
        CallsAt before session trace kind number result after) }
{
    let Some(mut answerer) = m.take(alloc) else {
        return CLOSED;
    };
    let code = answerer.call(session, trace, kind, number);
    m.put(answerer);
    code
}

/// Tells how many rows a part of the evidence of the last reply has.
#[unsafe(no_mangle)]
pub extern "C" fn scm_evidence_count(
    alloc: Global,
    m: &mut Monitor,
    part: u32,
    count: &mut usize,
) -> u32
    ensures counted { OnHeld m.old.slot.value result m.new.slot.value (λ before after.
        (after ≡ before) × CountsAt before part result count.new) }
    ensures other { result ≢ DONE → count.new ≡ count.old }
{
    let Some(answerer) = m.take(alloc) else {
        return CLOSED;
    };
    let code = answerer.count(part, count);
    m.put(answerer);
    code
}

/// Tells what stands in a field of a row of a part of the evidence of the last reply.
#[unsafe(no_mangle)]
pub extern "C" fn scm_evidence_at(
    alloc: Global,
    m: &mut Monitor,
    part: u32,
    row: usize,
    field: usize,
    number: &mut u64,
) -> u32
    ensures read { OnHeld m.old.slot.value result m.new.slot.value (λ before after.
        ReadsAt before part row field result number.new after) }
    ensures other { result ≢ DONE → number.new ≡ number.old }
{
    let Some(mut answerer) = m.take(alloc) else {
        return CLOSED;
    };
    let code = answerer.evidence(part, row, field, number);
    m.put(answerer);
    code
}
