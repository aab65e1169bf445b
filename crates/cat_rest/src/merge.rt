//! Bodies of merge requests.

ghost use Rattle.std.specs.Prelude.{◌≡◌, IfOk};
ghost use Rattle.serde_json.specs.View.{view};
ghost use Rattle.cat_json.specs.Reading.{Gives};
ghost use Rattle.cat_rest.specs.MergeBodies.{given_as, manner_as, merge_as, made_message, merge};

use crate::modes::modes;
use crate::path::PathReference;
use crate::source::NameForm;
use cat_codes::fault::NoMemory;
use cat_codes::text::Text;
use cat_commit::{GivenMeta, GivenMetaForm};
use cat_json::fault::JsonFault;
use cat_json::read::{ReadForm, defaulted, optional, required};
use cat_model::command::Merge;
use cat_model::merging::Modes;
use cat_names::hash::Hash;
use cat_names::ref_name::RefName;
use serde_json::Value;
use std::alloc::Global;

/// How a merge or a transplant is asked for.
#[derive(Drop)]
pub struct Manner {
    pub modes: Modes,
    pub dry_run: bool,
    pub conflicts_as_result: bool,
}

/// What a merge request asks for, beside its branch.
#[derive(Drop)]
pub struct MergeBody {
    pub from: RefName,
    pub from_hash: Hash,
    /// Its message is that of the whole body where the meta has none.
    pub given: GivenMeta,
    pub manner: Manner,
}

pub(crate) struct MergeForm;

#[tactic(auto, unfolding(crate::specs::MergeBodies::given_as))]
fn given(alloc: Global, value: &Value) -> Result<GivenMeta, JsonFault>
    ensures { Gives result (given_as (view value.now)) }
{
    let nothing = GivenMeta::new(alloc);
    let mut given = defaulted::<GivenMetaForm>(alloc, value, "commitMeta", nothing)?;
    let message = optional::<Text>(alloc, value, "message")?;
    if given.message.is_none() {
        given.message = message;
    }
    Ok(given)
}

/// How a body asks for a merge or a transplant.
#[tactic(auto, unfolding(crate::specs::MergeBodies::manner_as))]
pub(crate) fn manner_of(alloc: Global, value: &Value) -> Result<Manner, JsonFault>
    ensures { Gives result (manner_as (view value.now)) }
{
    let modes = modes(alloc, value)?;
    let dry_run = defaulted::<bool>(alloc, value, "dryRun", false)?;
    let conflicts_as_result = defaulted::<bool>(alloc, value, "returnConflictAsResult", false)?;
    Ok(Manner {
        modes,
        dry_run,
        conflicts_as_result,
    })
}

impl ReadForm for MergeForm {
    type Of = MergeBody;

    ghost reads = { merge_as };

    #[tactic(auto, unfolding(crate::specs::MergeBodies::merge_as))]
    fn from_json(alloc: Global, value: &Value) -> Result<MergeBody, JsonFault> {
        let from = required::<NameForm>(alloc, value, "fromRefName")?;
        let from_hash = required::<Hash>(alloc, value, "fromHash")?;
        let given = given(alloc, value)?;
        let manner = manner_of(alloc, value)?;
        Ok(MergeBody {
            from,
            from_hash,
            given,
            manner,
        })
    }
}

// The message of a merge that was given none.
fn made_message(alloc: Global, from: &RefName, branch: &RefName) -> Result<Text, NoMemory>
    ensures { IfOk result (λ text. text ≡ made_message from.now branch.now) }
{
    let from = from.as_str();
    let branch = branch.as_str();
    let text = format!(in alloc; "Merge {from} into {branch}")?;
    Ok(Text::from_string(text)?)
}

/// The merge that a body asks for at a branch.
pub(crate) fn merge(alloc: Global, at: PathReference, body: MergeBody) -> Result<Merge, NoMemory>
    ensures { IfOk result (λ m. m ≡ merge at body) }
{
    let mut given = body.given;
    let message = match given.message.take() {
        Some(message) => message,
        None => made_message(alloc, &body.from, &at.name)?,
    };
    Ok(Merge {
        branch: at.name,
        hash: at.hash,
        from: body.from,
        from_hash: body.from_hash,
        meta: given.with_message(message),
        modes: body.manner.modes,
        dry_run: body.manner.dry_run,
        conflicts_as_result: body.manner.conflicts_as_result,
    })
}
