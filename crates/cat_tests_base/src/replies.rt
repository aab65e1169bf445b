//! Replies that no request gets: a content that is gone, and want of memory.

use cat_codes::ascending::Ascending;
use cat_codes::seq::Seq;
use cat_codes::text::Text;
use cat_http::{Response, write_reply};
use cat_io::MemorySink;
use cat_model::commit::Meta;
use cat_model::moment::Moment;
use cat_model::reply::{Change, HistoryItem, HistoryPage, Reply};
use cat_names::hash::Hash;
use cat_names::key::ContentKey;
use cat_replies::to_json;
use std::alloc::{AllocError, Global};

/// One operation, which sets a key to a content that is gone.
fn operations(alloc: Global) -> Option<Seq<Change>> {
    let key = ContentKey::parse_path(alloc, "b").ok()?;
    let mut operations = Seq::new(alloc);
    operations.push(Change::Put(key, None)).ok()?;
    Some(operations)
}

fn meta(alloc: Global) -> Result<Meta, AllocError> {
    Ok(Meta {
        message: Text::from_str(alloc, "two")?,
        authors: Seq::new(alloc),
        signed: Seq::new(alloc),
        properties: Ascending::new(alloc),
        author_time: None,
    })
}

fn item(meta: Meta, operations: Seq<Change>) -> HistoryItem {
    HistoryItem {
        hash: Hash { bytes: [17; 32] },
        parent: Hash { bytes: [34; 32] },
        merge_parent: Some(Hash { bytes: [51; 32] }),
        time: Moment::from_micros(2_000_000),
        meta,
        operations: Some(operations),
    }
}

/// A page of a history with one commit.
fn history(alloc: Global, item: HistoryItem) -> Option<Reply> {
    let mut items = Seq::new(alloc);
    match items.push(item) {
        Ok(()) => Some(Reply::History(HistoryPage { items, next: None })),
        Err(_) => {
            drop(items);
            None
        }
    }
}

/// The page with that operation.
fn reply(alloc: Global) -> Option<Reply> {
    let operations = operations(alloc);
    let meta = meta(alloc);
    match (operations, meta) {
        (Some(operations), Ok(meta)) => history(alloc, item(meta, operations)),
        _ => None,
    }
}

/// Whether the reply's body has the text.
fn is_told(alloc: Global, reply: Reply, text: &str) -> bool {
    let body = to_json(alloc, &reply);
    drop(reply);
    match body {
        Ok(body) => body.as_str() == text,
        Err(_) => false,
    }
}

#[test]
fn a_content_that_is_gone_is_left_out(rt: HostRuntime) {
    let Some(reply) = reply(rt.alloc()) else {
        panic!(&rt; "there is memory");
    };
    assert!(&rt; is_told(rt.alloc(), reply, HISTORY));
}

/// Whether a reply is written as these bytes.
fn is_written(alloc: Global, reply: &Response, bytes: &[u8]) -> bool {
    match MemorySink::new(alloc, 1000, Vec::new(alloc)) {
        Ok(mut sink) => write_reply(&mut sink, reply) == Ok(()) && sink.bytes() == bytes,
        Err(_) => false,
    }
}

#[test]
fn want_of_memory_is_told_by_a_fixed_text(rt: HostRuntime) {
    let reply = Response::no_memory(false, false);
    assert!(&rt; is_written(rt.alloc(), &reply, NO_MEMORY));
}

const NO_MEMORY: &[u8] =
    b"HTTP/1.1 507 Insufficient Storage\r\nContent-Type: application/json\r\nContent-Length: 92\r\n\r\n{\"errorCode\":\"NO_MEMORY\",\"message\":\"no memory\",\"reason\":\"Insufficient Storage\",\"status\":507}";

const HISTORY: &str =
    r#"{"hasMore":false,"logEntries":[{"commitMeta":{"allProperties":{},"allSignedOffBy":[],"authors":[],"commitTime":"1970-01-01T00:00:02.000000Z","hash":"1111111111111111111111111111111111111111111111111111111111111111","message":"two","parentCommitHashes":["2222222222222222222222222222222222222222222222222222222222222222","3333333333333333333333333333333333333333333333333333333333333333"]},"operations":[{"key":{"elements":["b"]},"type":"PUT"}],"parentCommitHash":"2222222222222222222222222222222222222222222222222222222222222222"}]}"#;
