//! The names that numbers stand for.
ghost use Rattle.std.specs.Prelude.{◌≡◌};
ghost use Rattle.scm_embed.specs.Exports.{place_of, GivesNumber};

use scm_cells::Name;
use scm_sequences::NoMemory;

/// Where a name stands among these first.
fn place_of(names: &[Name], name: Name) -> Option<usize>
    ensures { result ≡ place_of names.now name }
{
    names.iter().position(|&other| other == name)
}

/// The number of a name among these, where it is put last if it is new.
pub(crate) fn number_for(names: &mut Vec<Name>, name: Name) -> Result<usize, NoMemory>
    ensures { GivesNumber names.old.items name result names.new.items }
{
    if let Some(place) = place_of(names, name) {
        return Ok(place);
    }
    let place = names.len();
    names.push(name)?;
    Ok(place)
}
