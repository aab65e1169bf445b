//! Contents as JSON.

ghost use Rattle.std.specs.Prelude.{◌≡◌, IfOk, Some, refl};
ghost use Rattle.serde_json.specs.Data.{string};
ghost use Rattle.serde_json.specs.View.{view};
ghost use Rattle.cat_model.specs.Contents.{content_code};
ghost use Rattle.cat_model.specs.declared.content.Body.TheVariants as bodies;
ghost use Rattle.cat_model.specs.Formats.{kind_name};
ghost use Rattle.cat_content.specs.Forms.{content_as, content_data, body_data, no_float_content, IsOfBytes};

use crate::{ContentForm, KindForm};
use cat_codes::ascending::Ascending;
use cat_codes::fault::NoMemory;
use cat_codes::seq::Seq;
use cat_codes::text::Text;
use cat_json::write::{Object, WriteForm};
use cat_model::content::{
    Body, Content, DeltaLakeTable, IcebergTable, IcebergView, Namespace, Udf,
};
use cat_model::entry::ContentKind;
use cat_names::hash::ContentId;
use serde_json::Value;
use std::alloc::Global;

impl WriteForm for KindForm {
    type Of = ContentKind;

    ghost writes = { λ kind. string (kind_name kind) };

    ghost no_float = { λ _. refl };

    fn to_json(alloc: Global, value: &ContentKind) -> Result<Value, NoMemory> {
        Ok(Value::String(String::from_str(alloc, value.name())?))
    }
}

fn table(alloc: Global, id: &ContentId, table: &IcebergTable) -> Result<Value, NoMemory>
    ensures { IfOk result (λ v. view v ≡ body_data id.now (bodies.IcebergTable table.now)) }
{
    Ok(
        Object::new(alloc)
            .with::<ContentId>("id", id)?
            .with::<Text>("metadataLocation", &table.metadata_location)?
            .with::<i32>("schemaId", &table.schema_id)?
            .with::<i64>("snapshotId", &table.snapshot_id)?
            .with::<i32>("sortOrderId", &table.sort_order_id)?
            .with::<i32>("specId", &table.spec_id)?
            .with::<KindForm>("type", &ContentKind::IcebergTable)?
            .into_value(),
    )
}

fn view_of(alloc: Global, id: &ContentId, found: &IcebergView) -> Result<Value, NoMemory>
    ensures { IfOk result (λ v. view v ≡ body_data id.now (bodies.IcebergView found.now)) }
{
    Ok(
        Object::new(alloc)
            .with::<ContentId>("id", id)?
            .with::<Text>("metadataLocation", &found.metadata_location)?
            .with::<i32>("schemaId", &found.schema_id)?
            .with::<KindForm>("type", &ContentKind::IcebergView)?
            .with::<i64>("versionId", &found.version_id)?
            .into_value(),
    )
}

fn delta(alloc: Global, id: &ContentId, table: &DeltaLakeTable) -> Result<Value, NoMemory>
    ensures { IfOk result (λ v. view v ≡ body_data id.now (bodies.DeltaLakeTable table.now)) }
{
    Ok(
        Object::new(alloc)
            .with::<Seq<Text>>("checkpointLocationHistory", &table.checkpoint_locations)?
            .with::<ContentId>("id", id)?
            .with_some::<Text>("lastCheckpoint", &table.last_checkpoint)?
            .with::<Seq<Text>>("metadataLocationHistory", &table.metadata_locations)?
            .with::<KindForm>("type", &ContentKind::DeltaLakeTable)?
            .into_value(),
    )
}

fn namespace(alloc: Global, id: &ContentId, found: &Namespace) -> Result<Value, NoMemory>
    ensures { IfOk result (λ v. view v ≡ body_data id.now (bodies.Namespace found.now)) }
{
    Ok(
        Object::new(alloc)
            .with::<Seq<Text>>("elements", &found.elements)?
            .with::<ContentId>("id", id)?
            .with::<Ascending<Text, Text>>("properties", &found.properties)?
            .with::<KindForm>("type", &ContentKind::Namespace)?
            .into_value(),
    )
}

fn udf(alloc: Global, id: &ContentId, found: &Udf) -> Result<Value, NoMemory>
    ensures { IfOk result (λ v. view v ≡ body_data id.now (bodies.Udf found.now)) }
{
    Ok(
        Object::new(alloc)
            .with::<ContentId>("id", id)?
            .with::<Text>("metadataLocation", &found.metadata_location)?
            .with::<Text>("signatureId", &found.signature_id)?
            .with::<KindForm>("type", &ContentKind::Udf)?
            .with::<Text>("versionId", &found.version_id)?
            .into_value(),
    )
}

/// The content as a JSON object, with its id.
#[tactic(auto, unfolding(crate::specs::Forms::content_data))]
pub fn to_json(alloc: Global, content: &Content) -> Result<Value, NoMemory>
    ensures { IfOk result (λ v. view v ≡ content_data content.now) }
{
    let id = &content.id;
    match &content.body {
        Body::IcebergTable(found) => table(alloc, id, found),
        Body::IcebergView(found) => view_of(alloc, id, found),
        Body::DeltaLakeTable(found) => delta(alloc, id, found),
        Body::Namespace(found) => namespace(alloc, id, found),
        Body::Udf(found) => udf(alloc, id, found),
    }
}

impl WriteForm for ContentForm {
    type Of = Content;

    ghost writes = { content_data };

    ghost no_float = { no_float_content };

    fn to_json(alloc: Global, value: &Content) -> Result<Value, NoMemory> {
        to_json(alloc, value)
    }
}

/// What is written of a content is read as that content, with its id.
pub fn reads_again()
    ensures { (c : Content) → (content_code).Fits c
        → IsOfBytes c.id
        → content_as (content_data c) ≡ Some (record { id = Some c.id; body = c.body }) }
{}
