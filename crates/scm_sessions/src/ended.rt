//! The end of a run over a shared book.

use scm_cells::Name;
use scm_shared::Audit;

/// What a run over a shared book ends with: the book with the audit of its passes and tallies, and the names of the sessions,
/// a name's place being the number of its session.
#[derive(Drop)]
pub struct Ended {
    pub audit: Audit,
    pub names: Vec<Name>,
}
