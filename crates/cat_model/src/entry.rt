//! Entries of keys.

ghost use Rattle.std.specs.Prelude.{◌≡◌, None, Some};
ghost use Rattle.cat_model.specs.Formats.{kind_number, kind_of, kind_name, kind_named, kind_code, entry_code};
ghost use Rattle.cat_model.specs.FormatLaws.{kind_is, entry_is};

use cat_codes::fault::{FieldFault, NoMemory};
use cat_codes::field::Field;
use cat_codes::reader::Reader;
use cat_codes::writer::Writer;
use cat_names::hash::{ContentId, Hash};
use std::alloc::Global;

/// A type of content.
#[derive(Clone, Copy, PartialEq, Eq)]
pub enum ContentKind {
    IcebergTable,
    IcebergView,
    DeltaLakeTable,
    Namespace,
    Udf,
}

impl ContentKind {
    /// Its number in the bytes of contents, commits and log entries.
    pub fn number(self) -> u8
        ensures { result ≡ kind_number self }
    {
        match self {
            ContentKind::IcebergTable => 1,
            ContentKind::IcebergView => 2,
            ContentKind::DeltaLakeTable => 3,
            ContentKind::Namespace => 4,
            ContentKind::Udf => 5,
        }
    }

    /// The type of a number; none for a number of no type.
    pub fn of(number: u8) -> Option<ContentKind>
        ensures { result ≡ kind_of number }
    {
        match number {
            1 => Some(ContentKind::IcebergTable),
            2 => Some(ContentKind::IcebergView),
            3 => Some(ContentKind::DeltaLakeTable),
            4 => Some(ContentKind::Namespace),
            5 => Some(ContentKind::Udf),
            _ => None,
        }
    }

    /// Its name in JSON.
    pub fn name(self) -> &'static str
        ensures { result.now ≡ kind_name self }
    {
        match self {
            ContentKind::IcebergTable => "ICEBERG_TABLE",
            ContentKind::IcebergView => "ICEBERG_VIEW",
            ContentKind::DeltaLakeTable => "DELTA_LAKE_TABLE",
            ContentKind::Namespace => "NAMESPACE",
            ContentKind::Udf => "UDF",
        }
    }

    /// The type of a name; none for a name of no type.
    pub fn named(name: &str) -> Option<ContentKind>
        ensures { result ≡ kind_named name.now }
    {
        match name {
            "ICEBERG_TABLE" => Some(ContentKind::IcebergTable),
            "ICEBERG_VIEW" => Some(ContentKind::IcebergView),
            "DELTA_LAKE_TABLE" => Some(ContentKind::DeltaLakeTable),
            "NAMESPACE" => Some(ContentKind::Namespace),
            "UDF" => Some(ContentKind::Udf),
            _ => None,
        }
    }
}

/// What a key stands for.
#[derive(Clone, Copy, PartialEq, Eq)]
pub struct Entry {
    pub kind: ContentKind,
    pub id: ContentId,
    pub hash: Hash,
}

impl Field for ContentKind {
    ghost code = { kind_code };

    ghost lawful = { kind_is };

    #[tactic(auto, unfolding(crate::specs::Formats::kind_code))]
    fn read(from: &mut Reader<'_>, _alloc: Global) -> Result<ContentKind, FieldFault> {
        let number = from.u8()?;
        match ContentKind::of(number) {
            None => Err(FieldFault::Range),
            Some(kind) => Ok(kind),
        }
    }

    #[tactic(auto, unfolding(crate::specs::Formats::kind_code))]
    fn write(&self, out: &mut Writer) -> Result<(), NoMemory> {
        out.u8(self.number())
    }
}

impl Field for Entry {
    ghost code = { entry_code };

    ghost lawful = { entry_is };

    #[tactic(auto, unfolding(crate::specs::Formats::entry_code))]
    fn read(from: &mut Reader<'_>, alloc: Global) -> Result<Entry, FieldFault> {
        let kind = ContentKind::read(from, alloc)?;
        let id = ContentId::read(from, alloc)?;
        let hash = Hash::read(from, alloc)?;
        Ok(Entry { kind, id, hash })
    }

    #[tactic(auto, unfolding(crate::specs::Formats::entry_code))]
    fn write(&self, out: &mut Writer) -> Result<(), NoMemory> {
        self.kind.write(out)?;
        self.id.write(out)?;
        self.hash.write(out)?;
        Ok(())
    }
}
