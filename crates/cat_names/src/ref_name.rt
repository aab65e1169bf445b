//! Names of references.

ghost use Rattle.std.specs.Prelude.{◌≡◌, IfOk, IsTrue, codes};
ghost use Rattle.std.specs.List.{list_all};
ghost use Rattle.cat_names.specs.NameFaults.{GivesName};
ghost use Rattle.cat_names.specs.RefNames.{begins_with_letter, has_good_dots, is_letter, is_name_byte, is_reference_name, ref_name_code, ref_name_is};

use crate::name_fault::NameFault;
use cat_codes::fault::{FieldFault, NoMemory};
use cat_codes::field::Field;
use cat_codes::reader::Reader;
use cat_codes::text::Text;
use cat_codes::writer::Writer;
use std::alloc::{AllocError, Global};
use std::marker::Model;

/// The name of a branch or a tag: an ASCII letter, then letters, digits and `.`, `/`, `_`, `-`,
/// without `..`, not ending in `.` or `/`, of at most 128 bytes.
#[derive(Debug, PartialEq, Eq, PartialOrd, Ord, Drop)]
pub struct RefName {
    text: Text,
}

impl Model for RefName {
    ghost use Rattle.std.specs.Prelude.{ℕ, List, IsTrue};
    ghost use Rattle.cat_names.specs.RefNames.{is_reference_name};

    ghost Value = { List ℕ };

    ghost view = { λ n. n.text };

    ghost invariant = { λ n. IsTrue (is_reference_name n.text) };

    ghost inverse = { λ xs. record { text = xs } };
}

impl RefName {
    /// The name that the text is.
    pub fn parse(alloc: Global, text: &str) -> Result<RefName, NameFault>
        ensures { GivesName result text.now }
    {
        if !is_name(text.as_bytes()) {
            return Err(NameFault::Bad);
        }
        Ok(RefName {
            text: Text::from_str(alloc, text)?,
        })
    }

    /// The name of the default branch.
    #[tactic(auto, unfolding(crate::specs::RefNames::is_reference_name))]
    pub fn main(alloc: Global) -> Result<RefName, AllocError>
        ensures { IfOk result (λ name. name ≡ codes "main") }
    {
        Ok(RefName {
            text: Text::from_str(alloc, "main")?,
        })
    }

    /// What holds of each name.
    pub fn known(&self)
        ensures { IsTrue (is_reference_name self.now) }
    {
        let _ = &self.text;
    }

    /// The name as a text.
    pub fn as_str(&self) -> &str
        ensures { result.now ≡ self.now }
    {
        self.text.as_str()
    }
}

impl Clone for RefName {
    ghost is_clone = { λ a b. b ≡ a };

    fn clone(&self) -> Result<RefName, AllocError> {
        Ok(RefName {
            text: self.text.clone()?,
        })
    }
}

impl Field for RefName {
    ghost code = { ref_name_code };

    ghost lawful = { ref_name_is };

    #[tactic(auto, unfolding(crate::specs::RefNames::ref_name_code))]
    fn read(from: &mut Reader<'_>, alloc: Global) -> Result<RefName, FieldFault> {
        let text = from.text(alloc)?;
        if !is_name(text.as_str().as_bytes()) {
            return Err(FieldFault::Range);
        }
        Ok(RefName { text })
    }

    #[tactic(auto, unfolding(crate::specs::RefNames::ref_name_code))]
    fn write(&self, out: &mut Writer) -> Result<(), NoMemory> {
        self.known();
        self.text.write(out)?;
        Ok(())
    }
}

/// Whether the bytes are a name of a reference.
#[tactic(auto, unfolding(crate::specs::RefNames::is_reference_name))]
fn is_name(bytes: &[u8]) -> bool
    ensures { result ≡ is_reference_name bytes.now }
{
    begins_with_letter(bytes) && all_in_names(bytes) && has_good_dots(bytes) && bytes.len() <= 128
}

/// Whether the first byte is a letter.
fn begins_with_letter(bytes: &[u8]) -> bool
    ensures { result ≡ begins_with_letter bytes.now }
{
    match bytes {
        [] => false,
        [first, ..] => is_letter(*first),
    }
}

/// Whether the byte is an ASCII letter.
fn is_letter(byte: u8) -> bool
    ensures { result ≡ is_letter byte }
{
    (65 <= byte && byte <= 90) || (97 <= byte && byte <= 122)
}

/// Whether the byte may stand in a name.
fn is_name_byte(byte: u8) -> bool
    ensures { result ≡ is_name_byte byte }
{
    is_letter(byte)
        || (48 <= byte && byte <= 57)
        || byte == b'.'
        || byte == b'/'
        || byte == b'_'
        || byte == b'-'
}

fn all_in_names(bytes: &[u8]) -> bool
    ensures { result ≡ list_all is_name_byte bytes.now }
{
    bytes.iter().all(|byte| is_name_byte(*byte))
}

/// Whether there are no two dots in a row, and no dot or slash at the end.
fn has_good_dots(bytes: &[u8]) -> bool
    ensures { result ≡ has_good_dots bytes.now }
{
    let mut before = 0;
    for byte in bytes {
        if before == b'.' && *byte == b'.' {
            return false;
        }
        before = *byte;
    }
    before != b'.' && before != b'/'
}
