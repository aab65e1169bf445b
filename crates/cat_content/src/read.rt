//! Contents of JSON.

ghost use Rattle.serde_json.specs.View.{view};
ghost use Rattle.cat_json.specs.Reading.{Gives};
ghost use Rattle.cat_content.specs.Forms.{kind_as, table_as, view_as, delta_as, namespace_as, udf_as, body_as, content_as};

use crate::{ContentForm, KindForm};
use cat_codes::ascending::Ascending;
use cat_codes::seq::Seq;
use cat_codes::text::Text;
use cat_json::fault::JsonFault;
use cat_json::read::{ReadForm, defaulted, optional, required};
use cat_model::content::{Body, DeltaLakeTable, IcebergTable, IcebergView, Namespace, Udf};
use cat_model::entry::ContentKind;
use cat_names::hash::ContentId;
use serde_json::Value;
use std::alloc::Global;

/// A content as a request gives it. Without an id it is new.
#[derive(Drop)]
pub struct Given {
    /// The id, which the server gives to a new content.
    pub id: Option<ContentId>,
    /// The type and its fields.
    pub body: Body,
}

impl ReadForm for KindForm {
    type Of = ContentKind;

    ghost reads = { kind_as };

    fn from_json(_alloc: Global, value: &Value) -> Result<ContentKind, JsonFault> {
        let Some(name) = value.as_str() else {
            return Err(JsonFault::Bad);
        };
        match ContentKind::named(name) {
            None => Err(JsonFault::Bad),
            Some(kind) => Ok(kind),
        }
    }
}

#[tactic(auto, unfolding(crate::specs::Forms::table_as))]
fn table(alloc: Global, value: &Value) -> Result<IcebergTable, JsonFault>
    ensures { Gives result (table_as (view value.now)) }
{
    let metadata_location = required::<Text>(alloc, value, "metadataLocation")?;
    let snapshot_id = defaulted::<i64>(alloc, value, "snapshotId", 0)?;
    let schema_id = defaulted::<i32>(alloc, value, "schemaId", 0)?;
    let spec_id = defaulted::<i32>(alloc, value, "specId", 0)?;
    let sort_order_id = defaulted::<i32>(alloc, value, "sortOrderId", 0)?;
    Ok(IcebergTable {
        metadata_location,
        snapshot_id,
        schema_id,
        spec_id,
        sort_order_id,
    })
}

#[tactic(auto, unfolding(crate::specs::Forms::view_as))]
fn view_of(alloc: Global, value: &Value) -> Result<IcebergView, JsonFault>
    ensures { Gives result (view_as (view value.now)) }
{
    let metadata_location = required::<Text>(alloc, value, "metadataLocation")?;
    let version_id = defaulted::<i64>(alloc, value, "versionId", 0)?;
    let schema_id = defaulted::<i32>(alloc, value, "schemaId", 0)?;
    Ok(IcebergView {
        metadata_location,
        version_id,
        schema_id,
    })
}

#[tactic(auto, unfolding(crate::specs::Forms::delta_as))]
fn delta(alloc: Global, value: &Value) -> Result<DeltaLakeTable, JsonFault>
    ensures { Gives result (delta_as (view value.now)) }
{
    let none = Seq::new(alloc);
    let metadata = defaulted::<Seq<Text>>(alloc, value, "metadataLocationHistory", none)?;
    let none = Seq::new(alloc);
    let checkpoints = defaulted::<Seq<Text>>(alloc, value, "checkpointLocationHistory", none)?;
    let last_checkpoint = optional::<Text>(alloc, value, "lastCheckpoint")?;
    Ok(DeltaLakeTable {
        metadata_locations: metadata,
        checkpoint_locations: checkpoints,
        last_checkpoint,
    })
}

#[tactic(auto, unfolding(crate::specs::Forms::namespace_as))]
fn namespace(alloc: Global, value: &Value) -> Result<Namespace, JsonFault>
    ensures { Gives result (namespace_as (view value.now)) }
{
    let elements = required::<Seq<Text>>(alloc, value, "elements")?;
    let none = Ascending::new(alloc);
    let properties = defaulted::<Ascending<Text, Text>>(alloc, value, "properties", none)?;
    Ok(Namespace {
        elements,
        properties,
    })
}

#[tactic(auto, unfolding(crate::specs::Forms::udf_as))]
fn udf(alloc: Global, value: &Value) -> Result<Udf, JsonFault>
    ensures { Gives result (udf_as (view value.now)) }
{
    let metadata_location = required::<Text>(alloc, value, "metadataLocation")?;
    let version_id = required::<Text>(alloc, value, "versionId")?;
    let signature_id = required::<Text>(alloc, value, "signatureId")?;
    Ok(Udf {
        metadata_location,
        version_id,
        signature_id,
    })
}

fn body(alloc: Global, kind: ContentKind, value: &Value) -> Result<Body, JsonFault>
    ensures { Gives result (body_as kind (view value.now)) }
{
    Ok(match kind {
        ContentKind::IcebergTable => Body::IcebergTable(table(alloc, value)?),
        ContentKind::IcebergView => Body::IcebergView(view_of(alloc, value)?),
        ContentKind::DeltaLakeTable => Body::DeltaLakeTable(delta(alloc, value)?),
        ContentKind::Namespace => Body::Namespace(namespace(alloc, value)?),
        ContentKind::Udf => Body::Udf(udf(alloc, value)?),
    })
}

/// The content that JSON gives: an object with `type`, `id` and the members of the type.
#[tactic(auto, unfolding(crate::specs::Forms::content_as))]
pub fn from_json(alloc: Global, value: &Value) -> Result<Given, JsonFault>
    ensures { Gives result (content_as (view value.now)) }
{
    let kind = required::<KindForm>(alloc, value, "type")?;
    let id = optional::<ContentId>(alloc, value, "id")?;
    let body = body(alloc, kind, value)?;
    Ok(Given { id, body })
}

impl ReadForm for ContentForm {
    type Of = Given;

    ghost reads = { content_as };

    fn from_json(alloc: Global, value: &Value) -> Result<Given, JsonFault> {
        from_json(alloc, value)
    }
}
