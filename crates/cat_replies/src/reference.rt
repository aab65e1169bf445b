//! References as JSON.

ghost use Rattle.cat_replies.specs.Replies.{reference_data, effective_data, no_float_reference, no_float_effective};

use crate::wording::kind_text;
use cat_codes::fault::NoMemory;
use cat_json::write::{Object, WriteForm};
use cat_model::reference::{Effective, Reference};
use cat_names::hash::Hash;
use serde_json::Value;
use std::alloc::Global;

pub(crate) struct ReferenceForm;

pub(crate) struct EffectiveForm;

impl WriteForm for ReferenceForm {
    type Of = Reference;

    ghost writes = { reference_data };

    ghost no_float = { no_float_reference };

    fn to_json(alloc: Global, reference: &Reference) -> Result<Value, NoMemory> {
        Ok(
            Object::new(alloc)
                .with::<Hash>("hash", &reference.head)?
                .with_str("name", reference.name.as_str())?
                .with_str("type", kind_text(reference.kind))?
                .into_value(),
        )
    }
}

impl WriteForm for EffectiveForm {
    type Of = Effective;

    ghost writes = { effective_data };

    ghost no_float = { no_float_effective };

    fn to_json(alloc: Global, effective: &Effective) -> Result<Value, NoMemory> {
        match effective {
            Effective::Named(reference) => ReferenceForm::to_json(alloc, reference),
            Effective::Detached(hash) => Ok(
                Object::new(alloc)
                    .with::<Hash>("hash", hash)?
                    .with_str("type", "DETACHED")?
                    .into_value(),
            ),
        }
    }
}
