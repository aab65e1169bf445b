//! Sources in bodies.

ghost use Rattle.serde_json.specs.View.{view};
ghost use Rattle.cat_json.specs.Reading.{Gives};
ghost use Rattle.cat_rest.specs.Sources.{name_as, named_as, detached_as, source_as};

use cat_json::fault::JsonFault;
use cat_json::read::{ReadForm, member, optional, required};
use cat_model::reference::{Kind, Pointer};
use cat_names::hash::Hash;
use cat_names::name_fault::NameFault;
use cat_names::ref_name::RefName;
use serde_json::Value;
use std::alloc::Global;

/// A source, and the kind that the body says it has.
#[derive(Drop)]
pub struct Source {
    pub at: Pointer,
    pub kind: Option<Kind>,
}

/// The form of a reference's name.
pub(crate) struct NameForm;

impl ReadForm for NameForm {
    type Of = RefName;

    ghost reads = { name_as };

    fn from_json(alloc: Global, value: &Value) -> Result<RefName, JsonFault> {
        let Some(text) = value.as_str() else {
            return Err(JsonFault::Bad);
        };
        match RefName::parse(alloc, text) {
            Ok(name) => Ok(name),
            Err(NameFault::Bad) => Err(JsonFault::Bad),
            Err(NameFault::NoMemory) => Err(JsonFault::NoMemory),
        }
    }
}

/// The form of a source.
pub(crate) struct SourceForm;

#[tactic(auto, unfolding(crate::specs::Sources::named_as))]
fn named(alloc: Global, kind: Kind, value: &Value) -> Result<Source, JsonFault>
    ensures { Gives result (named_as kind (view value.now)) }
{
    let name = required::<NameForm>(alloc, value, "name")?;
    let hash = optional::<Hash>(alloc, value, "hash")?;
    let at = Pointer {
        name: Some(name),
        hash,
    };
    Ok(Source {
        at,
        kind: Some(kind),
    })
}

fn detached(alloc: Global, value: &Value) -> Result<Source, JsonFault>
    ensures { Gives result (detached_as (view value.now)) }
{
    let hash = required::<Hash>(alloc, value, "hash")?;
    let at = Pointer {
        name: None,
        hash: Some(hash),
    };
    Ok(Source { at, kind: None })
}

impl ReadForm for SourceForm {
    type Of = Source;

    ghost reads = { source_as };

    #[tactic(auto, unfolding(crate::specs::Sources::source_as))]
    fn from_json(alloc: Global, value: &Value) -> Result<Source, JsonFault> {
        match member(value, "type")?.as_str() {
            Some("BRANCH") => named(alloc, Kind::Branch, value),
            Some("TAG") => named(alloc, Kind::Tag, value),
            Some("DETACHED") => detached(alloc, value),
            _ => Err(JsonFault::Bad),
        }
    }
}
