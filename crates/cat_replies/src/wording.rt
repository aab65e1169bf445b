//! The texts of the API for references, conflicts, merges and refusals.

ghost use Rattle.std.specs.Prelude.{◌≡◌, IfOk, string_bytes};
ghost use Rattle.cat_replies.specs.Wording.{kind_text, conflict_text, behaviour_text, quantity_text, reason_text, status_of as status_number, phrase_of, code_of as code_text, message_of};

use cat_model::conflict::ConflictKind;
use cat_model::limits::Quantity;
use cat_model::merging::Behaviour;
use cat_model::reference::Kind;
use cat_model::refusal::{Missing, Reason, Refusal};
use http::StatusCode;
use std::alloc::{AllocError, Global};

pub(crate) fn kind_text(kind: Kind) -> &'static str
    ensures { result.now ≡ kind_text kind }
{
    match kind {
        Kind::Branch => "BRANCH",
        Kind::Tag => "TAG",
    }
}

pub(crate) fn conflict_text(kind: ConflictKind) -> &'static str
    ensures { result.now ≡ conflict_text kind }
{
    match kind {
        ConflictKind::KeyExists => "KEY_EXISTS",
        ConflictKind::KeyDoesNotExist => "KEY_DOES_NOT_EXIST",
        ConflictKind::PayloadDiffers => "PAYLOAD_DIFFERS",
        ConflictKind::ContentIdDiffers => "CONTENT_ID_DIFFERS",
        ConflictKind::ValueDiffers => "VALUE_DIFFERS",
        ConflictKind::NamespaceAbsent => "NAMESPACE_ABSENT",
        ConflictKind::NotANamespace => "NOT_A_NAMESPACE",
        ConflictKind::NamespaceNotEmpty => "NAMESPACE_NOT_EMPTY",
        ConflictKind::UnexpectedHash => "UNEXPECTED_HASH",
    }
}

pub(crate) fn behaviour_text(behaviour: Behaviour) -> &'static str
    ensures { result.now ≡ behaviour_text behaviour }
{
    match behaviour {
        Behaviour::Normal => "NORMAL",
        Behaviour::Force => "FORCE",
        Behaviour::Drop => "DROP",
    }
}

pub(crate) fn quantity_text(which: Quantity) -> &'static str
    ensures { result.now ≡ quantity_text which }
{
    match which {
        Quantity::References => "References",
        Quantity::Log => "Log",
        Quantity::Commits => "Commits",
        Quantity::Keys => "Keys",
        Quantity::Contents => "Contents",
        Quantity::Names => "Names",
        Quantity::Drafts => "Drafts",
        Quantity::Checkpoint => "Checkpoint",
    }
}

pub(crate) fn reason_text(reason: Reason) -> &'static str
    ensures { result.now ≡ reason_text reason }
{
    match reason {
        Reason::BadHead => "bad head",
        Reason::BadBody => "bad body",
        Reason::BadQuery => "bad query",
        Reason::BadPath => "bad path",
        Reason::NotABranch => "not a branch",
        Reason::DefaultBranch => "default branch",
        Reason::OtherType => "other type",
        Reason::NotConsecutive => "not consecutive",
    }
}

/// The status of a refusal's reply.
pub fn status_of(refusal: &Refusal) -> StatusCode
    ensures { result ≡ status_number refusal.now }
{
    match refusal {
        Refusal::BadRequest(_) => StatusCode::BAD_REQUEST,
        Refusal::RefNotFound => StatusCode::NOT_FOUND,
        Refusal::RefExists => StatusCode::CONFLICT,
        Refusal::ContentNotFound(_) => StatusCode::NOT_FOUND,
        Refusal::Conflicts(_) => StatusCode::CONFLICT,
        Refusal::Expired { .. } => StatusCode::CONFLICT,
        Refusal::RetriesSpent(_) => StatusCode::CONFLICT,
        Refusal::SweepOpen(_) => StatusCode::CONFLICT,
        Refusal::Limit { .. } => StatusCode::CONFLICT,
        Refusal::Collision { .. } => StatusCode::INTERNAL_SERVER_ERROR,
        Refusal::Fault => StatusCode::SERVICE_UNAVAILABLE,
        Refusal::Down(_) => StatusCode::SERVICE_UNAVAILABLE,
        Refusal::NoMemory => StatusCode::INSUFFICIENT_STORAGE,
        Refusal::NoRoute => StatusCode::NOT_FOUND,
        Refusal::WrongMethod(_) => StatusCode::METHOD_NOT_ALLOWED,
        Refusal::TooLarge => StatusCode::PAYLOAD_TOO_LARGE,
        Refusal::Encoding => StatusCode::UNSUPPORTED_MEDIA_TYPE,
        Refusal::OldFormat => StatusCode::CONFLICT,
    }
}

pub(crate) fn phrase_of(refusal: &Refusal) -> &'static str
    ensures { result.now ≡ phrase_of refusal.now }
{
    status_of(refusal).canonical_reason().unwrap_or("")
}

pub(crate) fn code_of(refusal: &Refusal) -> &'static str
    ensures { result.now ≡ code_text refusal.now }
{
    match refusal {
        Refusal::BadRequest(_) => "BAD_REQUEST",
        Refusal::RefNotFound => "REFERENCE_NOT_FOUND",
        Refusal::RefExists => "REFERENCE_ALREADY_EXISTS",
        Refusal::ContentNotFound(_) => "CONTENT_NOT_FOUND",
        Refusal::Conflicts(_) => "REFERENCE_CONFLICT",
        Refusal::Expired { .. } => "REFERENCE_CONFLICT",
        Refusal::RetriesSpent(_) => "REFERENCE_CONFLICT",
        Refusal::SweepOpen(_) => "SWEEP_OPEN",
        Refusal::Limit { .. } => "LIMIT",
        Refusal::Collision { .. } => "COLLISION",
        Refusal::Fault => "FAULT",
        Refusal::Down(_) => "DOWN",
        Refusal::NoMemory => "NO_MEMORY",
        Refusal::NoRoute => "NO_ROUTE",
        Refusal::WrongMethod(_) => "WRONG_METHOD",
        Refusal::TooLarge => "TOO_LARGE",
        Refusal::Encoding => "ENCODING",
        Refusal::OldFormat => "OLD_FORMAT",
    }
}

pub(crate) fn message_of(alloc: Global, refusal: &Refusal) -> Result<String, AllocError>
    ensures { IfOk result (λ text. string_bytes text ≡ message_of refusal.now) }
{
    let text = match refusal {
        Refusal::BadRequest(reason) => reason_text(*reason),
        Refusal::RefNotFound => "reference not found",
        Refusal::RefExists => "reference exists",
        Refusal::ContentNotFound(Missing::Absent) => "content absent",
        Refusal::ContentNotFound(Missing::Expired) => "content expired",
        Refusal::Conflicts(conflicts) => {
            let count = conflicts.len();
            return format!(in alloc; "conflicts: {count}");
        }
        Refusal::Expired { .. } => "contents expired",
        Refusal::RetriesSpent(_) => "head moved",
        Refusal::SweepOpen(_) => "sweep open",
        Refusal::Limit { .. } => "limit reached",
        Refusal::Collision { .. } => "hash collision",
        Refusal::Fault => "disk fault",
        Refusal::Down(_) => "store is down",
        Refusal::NoMemory => "no memory",
        Refusal::NoRoute => "no such path",
        Refusal::WrongMethod(_) => "method not allowed",
        Refusal::TooLarge => "body too large",
        Refusal::Encoding => "encoding not supported",
        Refusal::OldFormat => "old format",
    };
    String::from_str(alloc, text)
}
