//! Refusals as JSON.

ghost use Rattle.std.specs.Prelude.{◌≡◌, IfOk, option_map, string_bytes};
ghost use Rattle.serde_json.specs.View.{view};
ghost use Rattle.serde_json.specs.Written.{compact_text};
ghost use Rattle.cat_json.specs.Writing.{◌+>◌, held};
ghost use Rattle.cat_replies.specs.Refusals.{bytes_data, conflict_message, conflict_data, head_data, details_of, refusal_data, no_float_conflict, no_float_head, no_float_refusal};

use crate::wording::{code_of, conflict_text, message_of, phrase_of, quantity_text, status_of};
use cat_codes::fault::NoMemory;
use cat_codes::seq::Seq;
use cat_json::write::{Object, WriteForm, to_text};
use cat_model::conflict::Conflict;
use cat_model::refusal::Refusal;
use cat_names::hash::Hash;
use cat_names::key::ContentKey;
use serde_json::Value;
use std::alloc::Global;

pub(crate) struct ConflictForm;

// The form of a place and the head at it.
struct HeadForm;

struct RefusalForm;

fn conflict_message(alloc: Global, conflict: &Conflict) -> Result<String, NoMemory>
    ensures { IfOk result (λ text. string_bytes text ≡ conflict_message conflict.now) }
{
    let kind = conflict_text(conflict.kind);
    match &conflict.key {
        None => Ok(String::from_str(alloc, kind)?),
        Some(key) => {
            let path = key.to_path(alloc)?;
            let path = path.as_str();
            Ok(format!(in alloc; "{kind}: {path}")?)
        }
    }
}

impl WriteForm for ConflictForm {
    type Of = Conflict;

    ghost writes = { conflict_data };

    ghost no_float = { no_float_conflict };

    fn to_json(alloc: Global, conflict: &Conflict) -> Result<Value, NoMemory> {
        let message = conflict_message(alloc, conflict)?;
        Ok(
            Object::new(alloc)
                .with_str("conflictType", conflict_text(conflict.kind))?
                .with_some::<ContentKey>("key", &conflict.key)?
                .with_str("message", message.as_str())?
                .into_value(),
        )
    }
}

impl WriteForm for HeadForm {
    type Of = (u32, Hash);

    ghost writes = { head_data };

    ghost no_float = { no_float_head };

    fn to_json(alloc: Global, head: &(u32, Hash)) -> Result<Value, NoMemory> {
        let (place, hash) = head;
        Ok(
            Object::new(alloc)
                .with::<Hash>("hash", hash)?
                .with::<u32>("place", place)?
                .into_value(),
        )
    }
}

// One more member that has the bytes' hexadecimal digits.
fn with_bytes(object: Object, name: &str, bytes: &[u8]) -> Result<Object, NoMemory>
    ensures { IfOk result (λ o. held o ≡ held object +> (name.now, bytes_data bytes.now)) }
{
    let digits = hex::encode(object.alloc, bytes)?;
    object.with_str(name, digits.as_str())
}

fn details(alloc: Global, refusal: &Refusal) -> Result<Option<Value>, NoMemory>
    ensures { IfOk result (λ details. option_map view details ≡ details_of refusal.now) }
{
    let object = Object::new(alloc);
    let object = match refusal {
        Refusal::Conflicts(conflicts) => object
            .with::<Seq<ConflictForm>>("conflicts", conflicts)?
            .with_str("type", "REFERENCE_CONFLICTS")?,
        Refusal::Expired { keys, opened } => object
            .with::<Seq<ContentKey>>("keys", keys)?
            .with::<u32>("openedPlace", opened)?
            .with_str("type", "EXPIRED")?,
        Refusal::RetriesSpent(heads) => object
            .with::<Seq<HeadForm>>("heads", heads)?
            .with_str("type", "RETRIES_SPENT")?,
        Refusal::SweepOpen(place) => object
            .with::<u32>("place", place)?
            .with_str("type", "SWEEP_OPEN")?,
        Refusal::Limit { which, number } => object
            .with_str("limit", quantity_text(*which))?
            .with::<u64>("number", number)?
            .with_str("type", "LIMIT")?,
        Refusal::Collision {
            hash,
            first,
            second,
        } => with_bytes(
            with_bytes(object, "first", first.as_slice())?.with::<Hash>("hash", hash)?,
            "second",
            second.as_slice(),
        )?
        .with_str("type", "COLLISION")?,
        Refusal::Down(faults) => object
            .with::<u64>("faults", faults)?
            .with_str("type", "DOWN")?,
        _ => return Ok(None),
    };
    Ok(Some(object.into_value()))
}

impl WriteForm for RefusalForm {
    type Of = Refusal;

    ghost writes = { refusal_data };

    ghost no_float = { no_float_refusal };

    fn to_json(alloc: Global, refusal: &Refusal) -> Result<Value, NoMemory> {
        let message = message_of(alloc, refusal)?;
        let details = details(alloc, refusal)?;
        let object = Object::new(alloc).with_str("errorCode", code_of(refusal))?;
        let object = match details {
            Some(details) => object.with_value("errorDetails", details)?,
            None => object,
        };
        Ok(
            object
                .with_str("message", message.as_str())?
                .with_str("reason", phrase_of(refusal))?
                .with::<u32>("status", &u32::from(status_of(refusal).as_u16()))?
                .into_value(),
        )
    }
}

/// The text of a refusal's body.
pub fn refusal_to_json(alloc: Global, refusal: &Refusal) -> Result<String, NoMemory>
    ensures { IfOk result (λ text. string_bytes text ≡ compact_text (refusal_data refusal.now)) }
{
    to_text::<RefusalForm>(alloc, refusal)
}
