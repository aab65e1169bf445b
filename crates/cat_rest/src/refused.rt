//! Refusals by the bytes of a request.

ghost use Rattle.std.specs.Prelude.{◌≡◌, None};
ghost use Rattle.cat_json.specs.Reading.{body_as};
ghost use Rattle.cat_model.specs.declared.refusal.Reason.TheVariants.{BadBody};
ghost use Rattle.cat_rest.specs.Faults.{Answers, BecomesBadBody, or_bad};

use cat_json::fault::JsonFault;
use cat_json::read::{ReadForm, from_bytes};
use cat_model::refusal::{Reason, Refusal, Refused};
use std::alloc::Global;

/// No state was looked at, so it has no place.
pub(crate) fn refused(why: Refusal) -> Refused
    ensures { result ≡ record { place = None; why = why } }
{
    Refused { place: None, why }
}

fn bad_body(fault: JsonFault) -> Refused
    ensures { BecomesBadBody fault result }
{
    match fault {
        JsonFault::Bad => refused(Refusal::BadRequest(Reason::BadBody)),
        JsonFault::NoMemory => refused(Refusal::NoMemory),
    }
}

/// What a body stands for.
pub(crate) fn read_body<F: ReadForm>(alloc: Global, body: &[u8]) -> Result<F::Of, Refused>
    ensures { Answers result (or_bad BadBody (body_as F.reads body.now)) }
{
    match from_bytes::<F>(alloc, body) {
        Ok(value) => Ok(value),
        Err(fault) => Err(bad_body(fault)),
    }
}
