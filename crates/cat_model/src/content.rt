//! Contents of keys.

ghost use Rattle.std.specs.Prelude.{◌≡◌, bytes_eq};
ghost use Rattle.std.specs.Cmp.Lexicographic.{pointwise};
ghost use Rattle.cat_model.specs.Contents.{table_code, view_code, delta_code, namespace_code, udf_code, content_code, body_kind};
ghost use Rattle.cat_model.specs.ContentLaws.{table_is, view_is, delta_is, namespace_is, udf_is, content_is};
ghost use Rattle.cat_model.specs.WellMade.{may_stand_at};

use crate::entry::ContentKind;
use cat_codes::ascending::Ascending;
use cat_codes::fault::{FieldFault, NoMemory};
use cat_codes::field::Field;
use cat_codes::reader::Reader;
use cat_codes::seq::Seq;
use cat_codes::text::Text;
use cat_codes::writer::Writer;
use cat_names::hash::ContentId;
use cat_names::key::{ContentKey, Element};
use std::alloc::Global;

/// The state of an Iceberg table.
#[derive(Clone, Drop)]
pub struct IcebergTable {
    /// Where the table's metadata file lies.
    pub metadata_location: Text,
    pub snapshot_id: i64,
    pub schema_id: i32,
    pub spec_id: i32,
    pub sort_order_id: i32,
}

/// The state of an Iceberg view.
#[derive(Clone, Drop)]
pub struct IcebergView {
    /// Where the view's metadata file lies.
    pub metadata_location: Text,
    pub version_id: i64,
    pub schema_id: i32,
}

/// The state of a Delta Lake table.
#[derive(Clone, Drop)]
pub struct DeltaLakeTable {
    /// Where the files of its log lie.
    pub metadata_locations: Seq<Text>,
    /// Where the files of its checkpoints lie.
    pub checkpoint_locations: Seq<Text>,
    /// The file that names the last checkpoint, where there is one.
    pub last_checkpoint: Option<Text>,
}

/// A namespace, which stands at the key of its elements alone.
#[derive(Clone, Drop)]
pub struct Namespace {
    pub elements: Seq<Text>,
    pub properties: Ascending<Text, Text>,
}

/// The state of a user-defined function.
#[derive(Clone, Drop)]
pub struct Udf {
    /// Where the function's metadata file lies.
    pub metadata_location: Text,
    pub version_id: Text,
    pub signature_id: Text,
}

/// What a content is, by its type.
#[derive(Drop)]
pub enum Body {
    IcebergTable(IcebergTable),
    IcebergView(IcebergView),
    DeltaLakeTable(DeltaLakeTable),
    Namespace(Namespace),
    Udf(Udf),
}

/// What a key stands for, in full.
#[derive(Drop)]
pub struct Content {
    pub id: ContentId,
    pub body: Body,
}

/// Whether the texts are the elements.
fn are_elements(texts: &[Text], elements: &[Element]) -> bool
    ensures { result ≡ pointwise bytes_eq texts.now elements.now }
{
    let mut texts = texts;
    let mut elements = elements;
    while let ([text, other_texts @ ..], [element, other_elements @ ..]) = (texts, elements) {
        if text.as_str() != element.as_str() {
            return false;
        }
        texts = other_texts;
        elements = other_elements;
    }
    texts.is_empty() && elements.is_empty()
}

impl Body {
    /// Its type.
    pub fn kind(&self) -> ContentKind
        ensures { result ≡ body_kind self.now }
    {
        match self {
            Body::IcebergTable(_) => ContentKind::IcebergTable,
            Body::IcebergView(_) => ContentKind::IcebergView,
            Body::DeltaLakeTable(_) => ContentKind::DeltaLakeTable,
            Body::Namespace(_) => ContentKind::Namespace,
            Body::Udf(_) => ContentKind::Udf,
        }
    }

    /// Whether it may stand at the key: a namespace at that of its elements alone.
    pub fn may_stand_at(&self, key: &ContentKey) -> bool
        ensures { result ≡ may_stand_at key.now self.now }
    {
        match self {
            Body::Namespace(namespace) => are_elements(
                namespace.elements.as_slice(),
                key.elements(),
            ),
            _ => true,
        }
    }
}

impl Field for IcebergTable {
    ghost code = { table_code };

    ghost lawful = { table_is };

    #[tactic(auto, unfolding(crate::specs::Contents::table_code))]
    fn read(from: &mut Reader<'_>, alloc: Global) -> Result<IcebergTable, FieldFault> {
        let metadata_location = Text::read(from, alloc)?;
        let snapshot_id = from.i64()?;
        let schema_id = from.i32()?;
        let spec_id = from.i32()?;
        let sort_order_id = from.i32()?;
        Ok(IcebergTable {
            metadata_location,
            snapshot_id,
            schema_id,
            spec_id,
            sort_order_id,
        })
    }

    #[tactic(auto, unfolding(crate::specs::Contents::table_code))]
    fn write(&self, out: &mut Writer) -> Result<(), NoMemory> {
        self.metadata_location.write(out)?;
        out.i64(self.snapshot_id)?;
        out.i32(self.schema_id)?;
        out.i32(self.spec_id)?;
        out.i32(self.sort_order_id)?;
        Ok(())
    }
}

impl Field for IcebergView {
    ghost code = { view_code };

    ghost lawful = { view_is };

    #[tactic(auto, unfolding(crate::specs::Contents::view_code))]
    fn read(from: &mut Reader<'_>, alloc: Global) -> Result<IcebergView, FieldFault> {
        let metadata_location = Text::read(from, alloc)?;
        let version_id = from.i64()?;
        let schema_id = from.i32()?;
        Ok(IcebergView {
            metadata_location,
            version_id,
            schema_id,
        })
    }

    #[tactic(auto, unfolding(crate::specs::Contents::view_code))]
    fn write(&self, out: &mut Writer) -> Result<(), NoMemory> {
        self.metadata_location.write(out)?;
        out.i64(self.version_id)?;
        out.i32(self.schema_id)?;
        Ok(())
    }
}

impl Field for DeltaLakeTable {
    ghost code = { delta_code };

    ghost lawful = { delta_is };

    #[tactic(auto, unfolding(crate::specs::Contents::delta_code))]
    fn read(from: &mut Reader<'_>, alloc: Global) -> Result<DeltaLakeTable, FieldFault> {
        let metadata_locations = Seq::read(from, alloc)?;
        let checkpoint_locations = Seq::read(from, alloc)?;
        let last_checkpoint = Option::read(from, alloc)?;
        Ok(DeltaLakeTable {
            metadata_locations,
            checkpoint_locations,
            last_checkpoint,
        })
    }

    #[tactic(auto, unfolding(crate::specs::Contents::delta_code))]
    fn write(&self, out: &mut Writer) -> Result<(), NoMemory> {
        self.metadata_locations.write(out)?;
        self.checkpoint_locations.write(out)?;
        self.last_checkpoint.write(out)?;
        Ok(())
    }
}

impl Field for Namespace {
    ghost code = { namespace_code };

    ghost lawful = { namespace_is };

    #[tactic(auto, unfolding(crate::specs::Contents::namespace_code))]
    fn read(from: &mut Reader<'_>, alloc: Global) -> Result<Namespace, FieldFault> {
        let elements = Seq::read(from, alloc)?;
        let properties = Ascending::read(from, alloc)?;
        Ok(Namespace {
            elements,
            properties,
        })
    }

    #[tactic(auto, unfolding(crate::specs::Contents::namespace_code))]
    fn write(&self, out: &mut Writer) -> Result<(), NoMemory> {
        self.elements.write(out)?;
        self.properties.write(out)?;
        Ok(())
    }
}

impl Field for Udf {
    ghost code = { udf_code };

    ghost lawful = { udf_is };

    #[tactic(auto, unfolding(crate::specs::Contents::udf_code))]
    fn read(from: &mut Reader<'_>, alloc: Global) -> Result<Udf, FieldFault> {
        let metadata_location = Text::read(from, alloc)?;
        let version_id = Text::read(from, alloc)?;
        let signature_id = Text::read(from, alloc)?;
        Ok(Udf {
            metadata_location,
            version_id,
            signature_id,
        })
    }

    #[tactic(auto, unfolding(crate::specs::Contents::udf_code))]
    fn write(&self, out: &mut Writer) -> Result<(), NoMemory> {
        self.metadata_location.write(out)?;
        self.version_id.write(out)?;
        self.signature_id.write(out)?;
        Ok(())
    }
}

impl Field for Content {
    ghost code = { content_code };

    ghost lawful = { content_is };

    #[tactic(auto, unfolding(crate::specs::Contents::content_code, crate::specs::Contents::of_table, crate::specs::Contents::of_view, crate::specs::Contents::of_delta, crate::specs::Contents::of_namespace, crate::specs::Contents::of_udf))]
    fn read(from: &mut Reader<'_>, alloc: Global) -> Result<Content, FieldFault> {
        match from.u8()? {
            1 => {
                let id = ContentId::read(from, alloc)?;
                let table = IcebergTable::read(from, alloc)?;
                Ok(Content {
                    id,
                    body: Body::IcebergTable(table),
                })
            }
            2 => {
                let id = ContentId::read(from, alloc)?;
                let view = IcebergView::read(from, alloc)?;
                Ok(Content {
                    id,
                    body: Body::IcebergView(view),
                })
            }
            3 => {
                let id = ContentId::read(from, alloc)?;
                let table = DeltaLakeTable::read(from, alloc)?;
                Ok(Content {
                    id,
                    body: Body::DeltaLakeTable(table),
                })
            }
            4 => {
                let id = ContentId::read(from, alloc)?;
                let namespace = Namespace::read(from, alloc)?;
                Ok(Content {
                    id,
                    body: Body::Namespace(namespace),
                })
            }
            5 => {
                let id = ContentId::read(from, alloc)?;
                let udf = Udf::read(from, alloc)?;
                Ok(Content {
                    id,
                    body: Body::Udf(udf),
                })
            }
            _ => Err(FieldFault::Range),
        }
    }

    #[tactic(auto, unfolding(crate::specs::Contents::content_code, crate::specs::Contents::of_table, crate::specs::Contents::of_view, crate::specs::Contents::of_delta, crate::specs::Contents::of_namespace, crate::specs::Contents::of_udf))]
    fn write(&self, out: &mut Writer) -> Result<(), NoMemory> {
        match &self.body {
            Body::IcebergTable(table) => {
                out.u8(1)?;
                self.id.write(out)?;
                table.write(out)?;
                Ok(())
            }
            Body::IcebergView(view) => {
                out.u8(2)?;
                self.id.write(out)?;
                view.write(out)?;
                Ok(())
            }
            Body::DeltaLakeTable(table) => {
                out.u8(3)?;
                self.id.write(out)?;
                table.write(out)?;
                Ok(())
            }
            Body::Namespace(namespace) => {
                out.u8(4)?;
                self.id.write(out)?;
                namespace.write(out)?;
                Ok(())
            }
            Body::Udf(udf) => {
                out.u8(5)?;
                self.id.write(out)?;
                udf.write(out)?;
                Ok(())
            }
        }
    }
}
