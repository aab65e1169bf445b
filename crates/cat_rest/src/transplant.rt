//! Bodies of transplant requests.

ghost use Rattle.std.specs.Prelude.{◌≡◌};
ghost use Rattle.cat_rest.specs.TransplantBodies.{hashes_as, transplant_as, transplant};

use crate::merge::{Manner, manner_of};
use crate::path::PathReference;
use crate::source::NameForm;
use cat_codes::seq::Seq;
use cat_json::fault::JsonFault;
use cat_json::read::{ReadForm, required};
use cat_model::command::Transplant;
use cat_names::hash::Hash;
use cat_names::ref_name::RefName;
use serde_json::Value;
use std::alloc::Global;

/// What a transplant request asks for, beside its branch.
#[derive(Drop)]
pub struct TransplantBody {
    pub from: RefName,
    pub hashes: Seq<Hash>,
    pub manner: Manner,
}

pub(crate) struct TransplantForm;

// The form of the commits.
struct HashesForm;

// The most commits of a request.
const MOST_HASHES: usize = 100;

impl ReadForm for HashesForm {
    type Of = Seq<Hash>;

    ghost reads = { hashes_as };

    fn from_json(alloc: Global, value: &Value) -> Result<Seq<Hash>, JsonFault> {
        let hashes = Seq::<Hash>::from_json(alloc, value)?;
        if hashes.len() == 0 || hashes.len() > MOST_HASHES {
            return Err(JsonFault::Bad);
        }
        Ok(hashes)
    }
}

impl ReadForm for TransplantForm {
    type Of = TransplantBody;

    ghost reads = { transplant_as };

    #[tactic(auto, unfolding(crate::specs::TransplantBodies::transplant_as))]
    fn from_json(alloc: Global, value: &Value) -> Result<TransplantBody, JsonFault> {
        let from = required::<NameForm>(alloc, value, "fromRefName")?;
        let hashes = required::<HashesForm>(alloc, value, "hashesToTransplant")?;
        let manner = manner_of(alloc, value)?;
        Ok(TransplantBody {
            from,
            hashes,
            manner,
        })
    }
}

/// The transplant that a body asks for at a branch.
pub(crate) fn transplant(at: PathReference, body: TransplantBody) -> Transplant
    ensures { result ≡ transplant at body }
{
    let TransplantBody {
        from,
        hashes,
        manner,
    } = body;
    let Manner {
        modes,
        dry_run,
        conflicts_as_result,
    } = manner;
    Transplant {
        branch: at.name,
        hash: at.hash,
        from,
        hashes,
        modes,
        dry_run,
        conflicts_as_result,
    }
}
