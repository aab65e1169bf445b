ghost use Rattle.std.specs.Prelude.{◌≡◌, IfOk, IsAscii};
ghost use Rattle.cat_routes.specs.Parts.{escaped};

use cat_codes::fault::NoMemory;
use percent_encoding::{AsciiSet, percent_encode};
use std::alloc::Global;
use std::marker::Model;

/// A path in which each byte outside ASCII is escaped, so that every part of it is a text.
#[derive(Drop)]
pub struct Path {
    text: String,
}

impl Model for Path {
    ghost use Rattle.std.specs.Prelude.{ℕ, List, IsAscii, string_bytes};

    ghost Value = { List ℕ };

    ghost view = { λ p. string_bytes p.text };

    ghost invariant = { λ p. IsAscii (string_bytes p.text) };
}

impl Path {
    /// The path of a target as it was sent.
    pub fn new(alloc: Global, path: &[u8]) -> Result<Path, NoMemory>
        ensures { IfOk result (λ p. p ≡ escaped path.now) }
    {
        let mut text = String::new(alloc);
        percent_encode(path, AsciiSet::EMPTY).append_to(&mut text)?;
        Ok(Path { text })
    }

    pub(crate) fn as_str(&self) -> &str
        ensures text { result.now ≡ self.now }
        ensures ascii { IsAscii result.now }
    {
        self.text.as_str()
    }
}
