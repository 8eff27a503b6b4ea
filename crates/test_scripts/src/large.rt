//! A trace of so many situations that its set is lent, and that no schedule decides.

use scm_book::Book;
use scm_cells::Name;
use std::alloc::{AllocError, Global};
use std::process::Abort;

/// So often both stores are reported where a worker is to search for some milliseconds.
pub(crate) const MANY: usize = 500;

/// More situations than tasks find, which are those of small traces.
pub(crate) const SEARCHED: usize = 1_000;

/// How many situations there are where both stores are reported so often.
pub(crate) fn situations(times: usize) -> usize {
    let places = times.saturating_add(1);
    places.saturating_mul(places)
}

/// The lines of a session that reports it. The last one is a load of what nobody stored: before it the order of the reports
/// is a schedule, and no worker has to search.
pub(crate) fn large_trace(
    alloc: Global,
    session: &str,
    trace: &str,
    times: usize,
) -> Result<String, AllocError> {
    let mut lines = format!(in alloc; "{session} open {trace} 3 1000000 x:w=0 y:w=0\n")?;
    for process in 0..3 {
        let claim = format!(in alloc; "{session} claim {trace} {process}\n")?;
        lines.push_str(claim.as_str())?;
    }
    let stores = format!(in alloc;
        "{session} do {trace} 0 sw x 1\n{session} do {trace} 1 sw y 1\n"
    )?;
    for _ in 0..times {
        lines.push_str(stores.as_str())?;
    }
    let load = format!(in alloc; "{session} do {trace} 2 lw x 2\n")?;
    lines.push_str(load.as_str())?;
    Ok(lines)
}

/// How many situations of a trace are held, which must be there.
pub(crate) fn held(rt: &impl Abort, book: &Book, trace: &[u8]) -> usize {
    let name = Name::read(trace).expect(rt, "a name");
    book.held(&name).expect(rt, "a trace")
}
