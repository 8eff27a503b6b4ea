//! The numbers that the exported calls answer.
ghost use Rattle.std.specs.Prelude.{◌≡◌};
ghost use Rattle.scm_book.specs.Machine.{reply_data};
ghost use Rattle.scm_embed.specs.Exports.{reply_code};

use scm_book::Reply;

/// All went well.
pub(crate) const DONE: u32 = 0;
/// The text doesn't fit the room; it is kept.
pub(crate) const NO_ROOM: u32 = 1;
/// Memory is refused.
pub(crate) const NO_MEMORY: u32 = 2;
/// There is no monitor here.
pub(crate) const CLOSED: u32 = 3;
/// A number stands for no name, kind or place, or a word is no name.
pub(crate) const BAD_NUMBER: u32 = 4;
/// The last reply has no such evidence.
pub(crate) const NO_EVIDENCE: u32 = 5;
/// The contents of a cell are open.
pub(crate) const STILL_OPEN: u32 = 6;

/// The number of a reply.
pub(crate) fn code_of(reply: &Reply) -> u32
    ensures { result ≡ reply_code (reply_data reply.now) }
{
    match reply {
        Reply::Done => 0,
        Reply::MarkSet(_) => 16,
        Reply::Consistent(_) => 17,
        Reply::Inconsistent => 18,
        Reply::Undecided => 19,
        Reply::Because(_) => 20,
        Reply::Cycle(_) => 21,
        Reply::Unknown => 22,
        Reply::Ops(_) => 23,
        Reply::Traces(_) => 24,
        Reply::Refused(refusal) => 32 + u32::from(refusal.number()),
    }
}
