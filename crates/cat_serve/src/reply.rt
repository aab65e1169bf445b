//! Replies to requests.

ghost use Rattle.std.specs.Prelude.{◌≡◌, IfErr, IfOk, Ok, Err, false, option_map, true};
ghost use Rattle.cat_http.specs.Reply.{render, body_bytes};
ghost use Rattle.cat_http.specs.Writing.{Wrote};
ghost use Rattle.cat_serve.specs.Answers.{RepliesTo, given_up};
ghost use Rattle.cat_serve.specs.Replies.{IsRefusalOf, allow_of, methods_text, must_be_told, refusal_text, said_bytes};
ghost use Rattle.cat_checks.specs.Changes.{tells_change};

use cat_codes::fault::NoMemory;
use cat_http::{Body, Response, WriteFault, write_reply};
use cat_io::Sink;
use cat_model::refusal::{Allowed, Refusal, Refused};
use cat_model::reply::{Reply, Told};
use cat_rest::{refusal_to_json, status_of, to_json};
use http::StatusCode;
use std::alloc::Global;

/// The reply to a request. Where no memory is left for its text, it tells so in place of what
/// needn't be told.
pub(crate) fn response(
    alloc: Global,
    close: bool,
    head_only: bool,
    told: &Result<Told, Refused>,
) -> Result<Response, NoMemory>
    ensures reply { IfOk result (λ r. RepliesTo close head_only told.now (render r)) }
    ensures untold { IfErr result (λ _. must_be_told told.now ≡ true) }
{
    match told_response(alloc, close, head_only, told) {
        Ok(response) => Ok(response),
        Err(NoMemory) => or_no_memory(close, head_only, must_be_told(told)),
    }
}

#[tactic(auto, unfolding(crate::specs::Replies::said_bytes))]
fn or_no_memory(close: bool, head_only: bool, must: bool) -> Result<Response, NoMemory>
    ensures reply { IfOk result
        (λ r. (must ≡ false) × (render r ≡ said_bytes close head_only (Err given_up))) }
    ensures untold { IfErr result (λ _. must ≡ true) }
{
    if must {
        return Err(NoMemory);
    }
    Ok(Response::no_memory(close, head_only))
}

// Whether want of memory isn't told in its place: a change that was made, or one whose entry may
// have been kept.
fn must_be_told(told: &Result<Told, Refused>) -> bool
    ensures { result ≡ must_be_told told.now }
{
    match told {
        Ok(told) => tells_change(&told.reply),
        Err(refused) => match refused.why {
            Refusal::Fault => true,
            _ => false,
        },
    }
}

fn tells_change(reply: &Reply) -> bool
    ensures { result ≡ tells_change reply.now }
{
    match reply {
        Reply::Reference(_) | Reply::Committed(_) | Reply::Swept(_) | Reply::Checkpoint(_) => true,
        Reply::Merged(merged) => merged.was_applied,
        _ => false,
    }
}

fn told_response(
    alloc: Global,
    close: bool,
    head_only: bool,
    told: &Result<Told, Refused>,
) -> Result<Response, NoMemory>
    ensures { IfOk result (λ r. render r ≡ said_bytes close head_only told.now) }
{
    match told {
        Ok(told) => accepted(alloc, close, head_only, told),
        Err(refused) => refusing(alloc, close, head_only, refused),
    }
}

#[tactic(auto, unfolding(crate::specs::Replies::said_bytes))]
fn accepted(alloc: Global, close: bool, head_only: bool, told: &Told) -> Result<Response, NoMemory>
    ensures { IfOk result (λ r. render r ≡ said_bytes close head_only (Ok told.now)) }
{
    let text = to_json(alloc, &told.reply)?;
    Ok(Response {
        status: StatusCode::OK,
        allow: None,
        place: Some(told.place),
        close,
        head_only,
        body: Body::Bytes(text.into_bytes()),
    })
}

#[tactic(auto, unfolding(crate::specs::Replies::said_bytes))]
fn refusing(
    alloc: Global,
    close: bool,
    head_only: bool,
    refused: &Refused,
) -> Result<Response, NoMemory>
    ensures { IfOk result (λ r. render r ≡ said_bytes close head_only (Err refused.now)) }
{
    let body = refusal_body(alloc, &refused.why)?;
    Ok(Response {
        status: status_of(&refused.why),
        allow: allow_of(&refused.why),
        place: refused.place,
        close,
        head_only,
        body,
    })
}

// The methods that a refusal tells.
fn allow_of(why: &Refusal) -> Option<&'static str>
    ensures { option_map (λ text. text.now) result ≡ allow_of why.now }
{
    match why {
        Refusal::WrongMethod(methods) => Some(methods_text(*methods)),
        _ => None,
    }
}

fn methods_text(methods: Allowed) -> &'static str
    ensures { result.now ≡ methods_text methods }
{
    match methods {
        Allowed::Get => "GET",
        Allowed::Post => "POST",
        Allowed::GetPost => "GET, POST",
        Allowed::GetPutDelete => "GET, PUT, DELETE",
    }
}

fn refusal_body(alloc: Global, why: &Refusal) -> Result<Body, NoMemory>
    ensures { IfOk result (λ body. body_bytes body ≡ refusal_text why.now) }
{
    match why {
        Refusal::NoMemory => Ok(Body::NoMemory),
        _ => Ok(Body::Bytes(refusal_to_json(alloc, why)?.into_bytes())),
    }
}

/// Writes a reply, or a front of it where the sink fails.
pub(crate) fn send<K: Sink>(sink: &mut K, reply: Response) -> Result<(), WriteFault>
    ensures { Wrote (K.held sink.old) (K.held sink.new) (K.faults sink.old) (K.faults sink.new)
        result (render reply) }
{
    write_reply(sink, &reply)
}

/// The reply to what is no request, or to a body that is too large: the session ends after it.
/// Where no memory is left for its text, it tells so.
#[tactic(auto, unfolding(crate::specs::Replies::said_bytes))]
pub(crate) fn refusal_reply(alloc: Global, why: Refusal) -> Response
    ensures { IsRefusalOf why (render result) }
{
    match refusing(alloc, true, false, &Refused { place: None, why }) {
        Ok(reply) => reply,
        Err(NoMemory) => Response::no_memory(true, false),
    }
}
