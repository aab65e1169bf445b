//! Sessions in which an allocation may be refused.

use crate::sent::Sent;
use crate::world::{Ran, World};
use std::alloc::{AllocError, Global};
use std::sync::Wait;
use std::thread::Threads;

const STATUS_LINE: &[u8] = b"HTTP/1.1 ";

const NO_MEMORY: &[u8] = b"HTTP/1.1 507 ";

const DONE: u8 = 0;

const OUT_OF_MEMORY: u8 = 4;

/// How a session went.
#[derive(Clone, Copy, Debug)]
pub enum Short {
    /// It had its memory.
    Whole,
    /// It was refused memory, and each reply is right.
    Right,
    /// It was refused memory, and this is wrong.
    Wrong(&'static str),
}

/// Plays a session. Where it was refused memory, it is compared with a session on a twin of its
/// world, of the requests that weren't refused.
pub fn play_short<R: Threads + Wait + Sync>(
    rt: &R,
    alloc: Global,
    world: &mut World,
    words: &[&str],
    sent: &Sent,
) -> Result<Short, AllocError> {
    let twin = world.twin(alloc)?;
    let requests = sent.requests(alloc)?;
    let ran = world.run(rt, alloc, words, sent.bytes())?;
    let is_refused = ran.told.windows(13).any(|part| part == NO_MEMORY);
    if ran.status == DONE && !is_refused {
        return Ok(Short::Whole);
    }
    let line = check(rt, alloc, world)?;
    let again = Again { twin, words, line };
    judge(rt, alloc, &again, &requests, &ran)
}

// What a session is compared with: its world as it began, its words, and the line that `check`
// tells of the journal that it left.
#[derive(Drop)]
struct Again<'a> {
    twin: World,
    words: &'a [&'a str],
    line: Vec<u8>,
}

fn judge<R: Threads + Wait + Sync>(
    rt: &R,
    alloc: Global,
    again: &Again<'_>,
    requests: &[&[u8]],
    ran: &Ran,
) -> Result<Short, AllocError> {
    let replies = replies(alloc, &ran.told)?;
    let mut made = Vec::new(alloc);
    let mut said = Vec::new(alloc);
    for (request, reply) in requests.iter().zip(replies.iter()) {
        if !reply.starts_with(NO_MEMORY) {
            made.extend_from_slice(request)?;
            said.extend_from_slice(reply)?;
        }
    }
    let (told, is_kept) = played(rt, alloc, again, &made)?;
    if told.as_slice() != said.as_slice() {
        return Ok(Short::Wrong("a reply is neither the right one nor 507"));
    }
    if ran.status == DONE {
        return Ok(done(replies.len() == requests.len(), is_kept));
    }
    let Some(next) = requests.get(replies.len()) else {
        return Ok(Short::Wrong("it ended behind its last reply"));
    };
    made.extend_from_slice(next)?;
    let (_, is_more) = played(rt, alloc, again, &made)?;
    Ok(stopped(ran.status, is_kept || is_more))
}

fn done(is_answered: bool, is_kept: bool) -> Short {
    if !is_answered {
        Short::Wrong("a request has no reply")
    } else if !is_kept {
        Short::Wrong("the journal holds something else than was accepted")
    } else {
        Short::Right
    }
}

fn stopped(status: u8, is_kept: bool) -> Short {
    if status != OUT_OF_MEMORY {
        Short::Wrong("it ended neither in status 0 nor in 4")
    } else if !is_kept {
        Short::Wrong("the journal holds more than was accepted and the call in flight, or less")
    } else {
        Short::Right
    }
}

// What a session of these requests writes with all memory, and whether it leaves a journal of the
// same line.
fn played<R: Threads + Wait + Sync>(
    rt: &R,
    alloc: Global,
    again: &Again<'_>,
    requests: &[u8],
) -> Result<(Vec<u8>, bool), AllocError> {
    let mut world = again.twin.twin(alloc)?;
    let ran = world.run(rt, alloc, again.words, requests)?;
    let line = check(rt, alloc, &mut world)?;
    Ok((ran.told, line.as_slice() == again.line.as_slice()))
}

// The line that `check` tells.
fn check<R: Threads + Wait + Sync>(
    rt: &R,
    alloc: Global,
    world: &mut World,
) -> Result<Vec<u8>, AllocError> {
    let path = String::from_str(alloc, world.path())?;
    let ran = world.run(rt, alloc, &["nessie", "check", path.as_str()], &[])?;
    Ok(ran.told)
}

// The replies in these bytes, each with all that comes before the next one.
fn replies(alloc: Global, bytes: &[u8]) -> Result<Vec<&[u8]>, AllocError> {
    let mut found = Vec::new(alloc);
    let mut rest = bytes;
    for at in 1..bytes.len() {
        let is_next = bytes.get(at..).unwrap_or(&[]).starts_with(STATUS_LINE);
        let length = at.saturating_sub(bytes.len().saturating_sub(rest.len()));
        if is_next && let Some((reply, after)) = rest.split_at_checked(length) {
            found.push(reply)?;
            rest = after;
        }
    }
    if rest.starts_with(STATUS_LINE) {
        found.push(rest)?;
    }
    Ok(found)
}
