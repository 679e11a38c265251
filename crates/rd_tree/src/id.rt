//! The ids of boxes.

ghost use Rattle.std.specs.Prelude.{◌≡◌, ◌↔◌, IfOk, true, false, string_bytes};
ghost use Rattle.std.specs.List.{list_all};
ghost use Rattle.rd_tree.specs.Ids as ids;

use rd_geom::NoMemory;
use std::alloc::Global;
use std::marker::Model;

/// Why a text made no id.
#[derive(Clone, Copy, PartialEq, Eq, Debug)]
pub enum IdFault {
    /// The text is empty, longer than 64 bytes, or has another character.
    Form,
    /// There was no memory.
    NoMemory,
}

/// The id of a box: 1 to 64 bytes, each an ASCII letter, a digit, `_`, `-`, `.` or `:`.
#[derive(Drop)]
pub struct Id {
    text: String,
}

impl Model for Id {
    ghost use Rattle.std.specs.Prelude.{◌≡◌, ℕ, List, true, string_bytes};
    ghost use Rattle.rd_tree.specs.Ids.{is_id};

    ghost Value = { List ℕ };

    ghost view = { λ i. string_bytes i.text };

    ghost invariant = { λ i. is_id (string_bytes i.text) ≡ true };
}

fn is_id_byte(b: u8) -> bool
    ensures { result ≡ ids.is_id_byte b }
{
    matches!(b, b'0'..=b'9' | b'A'..=b'Z' | b'a'..=b'z' | b'_' | b'-' | b'.' | b':')
}

fn are_id_bytes(bytes: &[u8]) -> bool
    ensures { result ≡ list_all ids.is_id_byte bytes.now }
{
    bytes.iter().all(|b| is_id_byte(*b))
}

fn is_id(text: &str) -> bool
    ensures { result ≡ ids.is_id text.now }
{
    let bytes = text.as_bytes();
    !bytes.is_empty() && bytes.len() <= 64 && are_id_bytes(bytes)
}

impl Id {
    /// The id with this text. `Form` where the text is no text of an id, `NoMemory` where it can't be stored.
    pub fn new(alloc: Global, text: &str) -> Result<Id, IdFault>
        ensures same_text { IfOk result (λ id. id ≡ text.now) }
        ensures well_formed { IfOk result (λ _. ids.is_id text.now ≡ true) }
        ensures form { (result ≡ Err IdFault.Form) ↔ (ids.is_id text.now ≡ false) }
    {
        if !is_id(text) {
            return Err(IdFault::Form);
        }
        match String::from_str(alloc, text) {
            Ok(text) => Ok(Id { text }),
            Err(_) => Err(IdFault::NoMemory),
        }
    }

    /// The text of the id.
    pub fn text(&self) -> &str
        ensures same_text { result.now ≡ self.now }
        ensures well_formed { ids.is_id self.now ≡ true }
    {
        self.text.as_str()
    }

    /// The same id once more.
    pub fn copy(&self) -> Result<Id, NoMemory>
        ensures { IfOk result (λ id. id ≡ self.now) }
    {
        Ok(Id {
            text: self.text.clone()?,
        })
    }

    /// The text of the id, to keep.
    pub(crate) fn name(&self) -> Result<String, NoMemory>
        ensures same_text { IfOk result (λ text. string_bytes text ≡ self.now) }
        ensures well_formed { ids.is_id self.now ≡ true }
    {
        self.text.clone()
    }
}
