//! The calls of the book.

use scm_cells::{Initial, Name, Width};
use scm_lowering::Access;

/// A declaration of a cell: its name, its width, and what it holds at first, where that is known.
#[derive(Clone, Copy, Debug, PartialEq, Eq)]
pub struct Decl {
    pub name: Name,
    pub width: Width,
    pub initial: Initial,
}

/// What a session asks of the book.
#[derive(Clone, Debug, PartialEq, Eq, Drop)]
pub enum Call {
    /// Opens a trace of this many processes, with this budget and these cells.
    OpenTrace {
        name: Name,
        procs: u64,
        budget: u64,
        cells: Vec<Decl>,
    },
    /// Claims a process of a trace.
    ClaimProcess {
        name: Name,
        process: u64,
    },
    /// Gives a claimed process of a trace up.
    ReleaseProcess {
        name: Name,
        process: u64,
    },
    /// Reports an access of a process.
    Report {
        name: Name,
        process: u64,
        access: Access,
    },
    /// Marks the present lengths of a trace.
    SetMark {
        name: Name,
    },
    /// Cuts a trace to a mark.
    GoBack {
        name: Name,
        mark: u64,
    },
    /// Raises the budget of a trace.
    RaiseBudget {
        name: Name,
        budget: u64,
    },
    /// Asks whether a trace is sequentially consistent, as it is or as it stood at a mark.
    Ask {
        name: Name,
        mark: Option<u64>,
    },
    /// The same, with a refutation where it is not.
    Why {
        name: Name,
        mark: Option<u64>,
    },
    /// Asks for a short refutation of a trace, as it is or as it stood at a mark.
    Cycle {
        name: Name,
        mark: Option<u64>,
    },
    /// Shows the operations of a process of a trace.
    ShowOps {
        name: Name,
        process: u64,
    },
    /// Lists the open traces.
    ListTraces,
    /// Closes a trace.
    CloseTrace {
        name: Name,
    },
}
