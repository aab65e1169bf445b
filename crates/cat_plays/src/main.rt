//! Plays files of rows over the program's public call, with files, streams and a clock in memory,
//! and prints how many rows and runs each has and what differs. docs/ROWS.md says what a line
//! means. A row is data: what it wants was never written by this program.
#![tactic(auto)]

mod fault;
mod names;
mod pattern;
mod player;
mod reply;
mod report;
mod sent;
mod short;
mod shown;
mod splits;
mod wanted;
mod world;

use crate::player::{Way, play};
use std::env;
use std::fs::{self, File, Files};
use std::io::{self, ErrorKind};
use std::process::ExitCode;
use std::rt::Runtime;
use std::sync::Wait;
use std::thread::Threads;

fn main(rt: HostRuntime) -> ExitCode {
    match play_all(&rt) {
        Ok(true) => ExitCode::from(0),
        Ok(false) => ExitCode::from(1),
        Err(_) => ExitCode::from(4),
    }
}

// Whether all that the words name was played, and nothing differed. It fails where the player
// itself has no memory, or can't print.
fn play_all<R>(rt: &R) -> io::Result<bool>
where
    R: Runtime + Files<File = File> + AllocGlobal + Threads + Wait + Sync,
{
    let mut way = Way::Whole;
    let mut is_right = true;
    for word in env::args(rt)?.skip(1) {
        if word.as_str() == "short" {
            way = Way::Short;
        } else {
            is_right = play_file(rt, way, word.as_str())? && is_right;
        }
    }
    Ok(is_right)
}

fn play_file<R>(rt: &R, way: Way, name: &str) -> io::Result<bool>
where
    R: Runtime + Files<File = File> + AllocGlobal + Threads + Wait + Sync,
{
    let text = match fs::read_to_string(rt, name) {
        Ok(text) => text,
        Err(error) if error.kind() == ErrorKind::OutOfMemory => return Err(error),
        Err(_) => {
            println!(rt; "{name}: can't be read")?;
            return Ok(false);
        }
    };
    let report = play(rt, rt.alloc(), way, text.as_str())?;
    let told = report.told(rt.alloc(), way)?;
    print!(rt; "{name}: {told}")?;
    Ok(report.is_right())
}
