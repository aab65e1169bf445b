//! Copies of contents, equal to them.

ghost use Rattle.std.specs.Prelude.{◌≡◌, IfOk};

use crate::content::{Body, Content, DeltaLakeTable, IcebergTable, IcebergView, Namespace, Udf};
use std::alloc::AllocError;

fn copy_table(table: &IcebergTable) -> Result<IcebergTable, AllocError>
    ensures { IfOk result (λ copy. copy ≡ table.now) }
{
    table.clone()
}

fn copy_view(view: &IcebergView) -> Result<IcebergView, AllocError>
    ensures { IfOk result (λ copy. copy ≡ view.now) }
{
    view.clone()
}

fn copy_delta(table: &DeltaLakeTable) -> Result<DeltaLakeTable, AllocError>
    ensures { IfOk result (λ copy. copy ≡ table.now) }
{
    table.clone()
}

fn copy_namespace(namespace: &Namespace) -> Result<Namespace, AllocError>
    ensures { IfOk result (λ copy. copy ≡ namespace.now) }
{
    namespace.clone()
}

fn copy_udf(udf: &Udf) -> Result<Udf, AllocError>
    ensures { IfOk result (λ copy. copy ≡ udf.now) }
{
    udf.clone()
}

/// A copy of a content.
pub fn copy_content(content: &Content) -> Result<Content, AllocError>
    ensures { IfOk result (λ copy. copy ≡ content.now) }
{
    let body = match &content.body {
        Body::IcebergTable(table) => Body::IcebergTable(copy_table(table)?),
        Body::IcebergView(view) => Body::IcebergView(copy_view(view)?),
        Body::DeltaLakeTable(table) => Body::DeltaLakeTable(copy_delta(table)?),
        Body::Namespace(namespace) => Body::Namespace(copy_namespace(namespace)?),
        Body::Udf(udf) => Body::Udf(copy_udf(udf)?),
    };
    Ok(Content {
        id: content.id,
        body,
    })
}
