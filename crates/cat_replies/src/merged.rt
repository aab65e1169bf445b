//! What a merge did or found, as JSON.

ghost use Rattle.std.specs.Prelude.{◌≡◌, IfOk};
ghost use Rattle.serde_json.specs.View.{view};
ghost use Rattle.cat_replies.specs.Merged.{conflict_of, detail_data, no_float_detail};
ghost use Rattle.cat_replies.specs.Replies.{merged_data};

use crate::reference::ReferenceForm;
use crate::refusal::ConflictForm;
use crate::wording::behaviour_text;
use cat_codes::fault::NoMemory;
use cat_codes::seq::Seq;
use cat_json::write::{Object, WriteForm};
use cat_model::conflict::Conflict;
use cat_model::merging::Detail;
use cat_model::reply::Merged;
use cat_names::hash::Hash;
use cat_names::key::ContentKey;
use serde_json::Value;
use std::alloc::Global;

// The form of what a merge found at a key.
struct DetailForm;

// The conflict of the key, where it has one.
fn conflict_of(detail: &Detail) -> Result<Option<Conflict>, NoMemory>
    ensures { IfOk result (λ conflict. conflict ≡ conflict_of detail.now) }
{
    match detail.conflict {
        None => Ok(None),
        Some(kind) => Ok(Some(Conflict {
            key: Some(detail.key.clone()?),
            kind,
        })),
    }
}

impl WriteForm for DetailForm {
    type Of = Detail;

    ghost writes = { detail_data };

    ghost no_float = { no_float_detail };

    fn to_json(alloc: Global, detail: &Detail) -> Result<Value, NoMemory> {
        let conflict = conflict_of(detail)?;
        Ok(
            Object::new(alloc)
                .with_some::<ConflictForm>("conflict", &conflict)?
                .with::<ContentKey>("key", &detail.key)?
                .with_str("mergeBehavior", behaviour_text(detail.behaviour))?
                .into_value(),
        )
    }
}

pub(crate) fn merged(alloc: Global, reply: &Merged) -> Result<Value, NoMemory>
    ensures { IfOk result (λ v. view v ≡ merged_data reply.now) }
{
    Ok(
        Object::new(alloc)
            .with_some::<Hash>("commonAncestor", &reply.common_ancestor)?
            .with::<Seq<DetailForm>>("details", &reply.details)?
            .with::<Hash>("effectiveTargetHash", &reply.effective_target)?
            .with::<Hash>("resultantTargetHash", &reply.target.head)?
            .with::<ReferenceForm>("targetBranch", &reply.target)?
            .with::<bool>("wasApplied", &reply.was_applied)?
            .with::<bool>("wasSuccessful", &reply.was_successful)?
            .into_value(),
    )
}
