//! Where a journal's payloads stand.

ghost use Rattle.std.specs.Prelude.{◌≡◌, ◌<◌, ◌≤◌, ◌+◌, ◌^◌, ◌∷◌, [], ◌++◌, length, OnOk, if◌then◌else◌};

use cat_codes::fault::NoMemory;
use std::alloc::Global;

/// Where the last base stands, and the entries behind it. The frames before it are counted alone.
#[derive(Drop)]
pub(crate) struct Points {
    /// The place of the base; 0 where there is none, as its gate.
    pub(crate) first: u32,
    /// Where the gate of the base stands.
    pub(crate) base: u64,
    /// How many payloads stand up to the base, and it with them.
    pub(crate) before: u64,
    /// Where the gates of the entries behind it stand.
    pub(crate) gates: Vec<u64>,
    /// Where the closed gate stands.
    pub(crate) end: u64,
}

impl Points {
    /// Those of a journal without payloads.
    pub(crate) fn new(alloc: Global) -> Points
        ensures gates { result.gates.items ≡ [] }
        ensures before { result.before ≡ 0 }
        ensures first { result.first ≡ 0 }
        ensures end { result.end ≡ 16 }
    {
        Points {
            first: 0,
            base: 0,
            before: 0,
            gates: Vec::new(alloc),
            end: 16,
        }
    }

    /// The payload behind the closed gate is a base: no entry stands behind it.
    pub(crate) fn rebase(&mut self)
        requires room { self.old.before + length self.old.gates.items ≤ self.old.end }
        requires end { self.old.end + 1 < 2 ^ 64 }
        ensures first { self.new.first ≡ self.old.first }
        ensures base { self.new.base ≡ self.old.end }
        ensures before { self.new.before ≡ self.old.before + length self.old.gates.items + 1 }
        ensures gates { self.new.gates.items ≡ [] }
        ensures end { self.new.end ≡ self.old.end }
    {
        self.base = self.end;
        self.before += self.gates.len() as u64 + 1;
        self.gates.clear();
    }

    /// Goes on behind a payload of so many bytes, a base or an entry.
    pub(crate) fn pass(&mut self, base: bool, size: u32) -> Result<(), NoMemory>
        requires room { self.old.before + length self.old.gates.items ≤ self.old.end }
        requires end { self.old.end + 5 + size + 1 < 2 ^ 64 }
        ensures first { self.new.first ≡ self.old.first }
        ensures at_base { OnOk result
            (self.new.base ≡ (if base then self.old.end else self.old.base)) }
        ensures before { OnOk result
            (self.new.before
            ≡ (if base then self.old.before + length self.old.gates.items + 1
            else self.old.before)) }
        ensures gates { OnOk result
            (self.new.gates.items
            ≡ (if base then [] else self.old.gates.items ++ self.old.end ∷ [])) }
        ensures end { OnOk result (self.new.end ≡ self.old.end + (5 + size)) }
    {
        if base {
            self.rebase();
        } else {
            self.gates.push(self.end)?;
        }
        self.end += 5 + u64::from(size);
        Ok(())
    }
}
