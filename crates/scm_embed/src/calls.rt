//! The accesses and calls that numbers stand for.
ghost use Rattle.std.specs.Prelude.{◌≡◌, option_map};
ghost use Rattle.scm_book.specs.Machine.{call_data};
ghost use Rattle.scm_embed.specs.Exports.{access_of_kind, call_of_kind};

use scm_amo::at;
use scm_book::Call;
use scm_cells::{Name, Num, Width};
use scm_lowering::Access;

/// The access of this kind: 0 `lw`, 1 `ld`, 2 `sw`, 3 `sd`, 4 `rw`, from 5 on the AMOs in their order, each with `.w` before `.d`.
/// A load and a store have one value.
pub(crate) fn access_of(kind: u32, cell: Name, first: u64, second: u64) -> Option<Access>
    ensures { result ≡ access_of_kind kind cell first second }
{
    let value = Num::Plain(first);
    let other = Num::Plain(second);
    Some(match kind {
        0 => Access::Load {
            width: Width::W,
            cell,
            value,
        },
        1 => Access::Load {
            width: Width::D,
            cell,
            value,
        },
        2 => Access::Store {
            width: Width::W,
            cell,
            value,
        },
        3 => Access::Store {
            width: Width::D,
            cell,
            value,
        },
        4 => Access::ReadWrite {
            cell,
            old: value,
            new: other,
        },
        _ => {
            let (amo, width) = at((kind - 5) as usize)?;
            Access::Amo {
                kind: amo,
                width,
                cell,
                operand: value,
                old: other,
            }
        }
    })
}

/// The call of this kind about a trace. Claims and releases have the number of a process, a return that of a mark, as have the
/// questions about one (6, 8, 10), and `raise` has a budget.
pub(crate) fn call_of(kind: u32, name: Name, number: u64) -> Option<Call>
    ensures { option_map call_data result ≡ call_of_kind kind name number }
{
    let (process, mark, budget) = (number, number, number);
    Some(match kind {
        0 => Call::ClaimProcess { name, process },
        1 => Call::ReleaseProcess { name, process },
        2 => Call::SetMark { name },
        3 => Call::GoBack { name, mark },
        4 => Call::RaiseBudget { name, budget },
        5 => Call::Ask { name, mark: None },
        6 => Call::Ask {
            name,
            mark: Some(mark),
        },
        7 => Call::Why { name, mark: None },
        8 => Call::Why {
            name,
            mark: Some(mark),
        },
        9 => Call::Cycle { name, mark: None },
        10 => Call::Cycle {
            name,
            mark: Some(mark),
        },
        11 => Call::CloseTrace { name },
        _ => return None,
    })
}
