//! Names of traces, sessions and cells.
ghost use Rattle.std.specs.Prelude.{◌≡◌, IsTrue, SomeIff};
ghost use Rattle.std.specs.Cmp.{partial_equiv_from_equiv};
ghost use Rattle.std.specs.Cmp.Lexicographic.{nat_list_eq_equiv};
ghost use Rattle.std.specs.Hash as fed;
ghost use Rattle.std.specs.List.{list_all};
ghost use Rattle.std.proofs.Common.{ap};
ghost use Rattle.scm_cells.specs.CellLists.{is_name, is_name_byte, name_eq};
ghost use Rattle.scm_cells.specs.laws.NameLaws.{name_eq-Decides};

use scm_sequences::LONGEST_NAME;
use std::hash::{Hash, Hasher};
use std::marker::Model;

/// A name: 1 to `LONGEST_NAME` bytes of `a-z 0-9 _ -`. It is kept in place and takes no memory.
///
/// Contracts see a name as the list of its bytes.
#[derive(Clone, Copy, Debug)]
pub struct Name {
    bytes: [u8; LONGEST_NAME],
    len: u8,
}

impl Model for Name {
    ghost use Rattle.std.specs.Prelude.{ℕ, List, length, take, ◌++◌, ◌-◌, replicate};
    ghost use Rattle.scm_sequences.specs.declared.limits.TheConstants.{LONGEST_NAME};
    ghost use Rattle.scm_cells.specs.CellLists.{IsPaddedName};
    ghost use Rattle.scm_cells.specs.laws.NameLaws.{length-padded, take-padded};

    ghost Value = { List ℕ };

    ghost view = { λ n. take n.len n.bytes };

    // The bytes past the end are zeros, so that equal names are kept alike.
    ghost invariant = { λ n. IsPaddedName n.bytes n.len };

    ghost inverse = { λ bytes. record { bytes = bytes ++ replicate (LONGEST_NAME - length bytes) 0; len = length bytes } };

    ghost inverse_ok = { λ n h i. record {
      bytes = take-padded n.bytes n.len h i;
      len = length-padded n.bytes n.len h i;
    } };
}

impl Name {
    /// The name that these bytes are, or `None` where they are none.
    pub fn read(word: &[u8]) -> Option<Name>
        ensures { SomeIff result (IsTrue (is_name word.now)) word.now }
    {
        if !is_name(word) {
            return None;
        }
        let mut bytes = [0; LONGEST_NAME];
        bytes[..word.len()].copy_from_slice(word);
        Some(Name {
            bytes,
            len: word.len() as u8,
        })
    }

    /// The bytes of the name.
    pub fn bytes(&self) -> &[u8]
        ensures bytes { result.now ≡ self.now }
        ensures name { IsTrue (is_name self.now) }
    {
        &self.bytes[..usize::from(self.len)]
    }
}

/// Whether these bytes are a name.
fn is_name(word: &[u8]) -> bool
    ensures { result ≡ is_name word.now }
{
    !word.is_empty() && word.len() <= LONGEST_NAME && has_name_bytes(word)
}

/// Whether a name may have each of these bytes.
fn has_name_bytes(word: &[u8]) -> bool
    ensures { result ≡ list_all is_name_byte word.now }
{
    word.iter().all(|&byte| is_name_byte(byte))
}

/// Whether a name may have this byte.
fn is_name_byte(byte: u8) -> bool
    ensures { result ≡ is_name_byte byte }
{
    matches!(byte, b'a'..=b'z' | b'0'..=b'9' | b'_' | b'-')
}

impl PartialEq for Name {
    ghost eq = { name_eq };

    ghost laws = { partial_equiv_from_equiv nat_list_eq_equiv };

    fn eq(&self, other: &Name) -> bool {
        self.bytes() == other.bytes()
    }
}

impl Eq for Name {
    ghost laws = { nat_list_eq_equiv };
}

impl Hash for Name {
    ghost hash_input = { fed.slice fed.u8 };

    ghost respects_eq = { λ a b same. ap (fed.slice fed.u8) ((name_eq-Decides a b).0 same) };

    fn hash<H: Hasher>(&self, state: &mut H) {
        self.bytes().hash(state);
    }
}
