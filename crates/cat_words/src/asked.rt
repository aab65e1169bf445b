//! What the words ask for.

ghost use Rattle.std.specs.Prelude.{◌≡◌, ◌≤◌, IfOk, IfSome, IsErrOf, None, Some, map, option_map};
ghost use Rattle.std.specs.Option.{option_and_then};
ghost use Rattle.clap.specs.Words.{all_of, found_of, first_of, rows_of, subcommand_rows_of};
ghost use Rattle.cat_words.specs.Asked.{IsFew, IsSet, address_in, asked, commits_of, connections_of, drill_of, few_of, gc_of, serve_of, task, task_of, texts};

use crate::line::{WordsFault, matches_of};
use crate::number::{number, number_between};
use clap::ArgMatches;
use std::alloc::{AllocError, Global};

/// A drill makes at most so many commits.
const MOST_COMMITS: u64 = 1_000_000;

/// A command.
#[derive(Drop)]
pub enum Asked<'a> {
    /// One session over the journal of this path.
    Script(&'a str),
    /// How much the journal of this path holds.
    Check(&'a str),
    /// Format 2 for the journal of this path.
    Migrate(&'a str),
    /// A collection over the journal of this path, by a default cutoff and any number of
    /// `PATTERN=CUTOFF`. They are texts, whether or not they are a policy.
    Gc {
        journal: &'a str,
        default: &'a str,
        rules: Vec<&'a str>,
    },
    /// So many commits, made from a seed.
    Drill {
        seed: u64,
        commits: u64,
    },
    /// The connections of this address, so many of them or without an end where that is 0, over the
    /// journal of this path, by so many workers, each of which tries a call so often.
    Serve {
        journal: &'a str,
        address: &'a str,
        workers: u32,
        attempts: u32,
        connections: u64,
    },
}

// The subcommand that was entered, and what was found of it.
fn entered<'m, 'a>(matches: &'m ArgMatches<'a>) -> Option<(&'a str, &'m ArgMatches<'a>)>
    ensures { option_map (λ p. (p.0.now, rows_of (found_of p.1.now))) result
        ≡ subcommand_rows_of matches.now }
{
    matches.subcommand()
}

// The text of an argument.
fn text<'a>(found: &ArgMatches<'a>, id: &str) -> Option<&'a str>
    ensures { option_map (λ text. text.now) result
        ≡ first_of id.now (rows_of (found_of found.now)) }
{
    found.get_str(id)
}

// The texts of an argument, where it has some.
fn all<'m, 'a>(found: &'m ArgMatches<'a>, id: &str) -> Option<&'m [&'a str]>
    ensures { option_map (λ texts. map (λ text. text.now) texts.now) result
        ≡ all_of id.now (rows_of (found_of found.now)) }
{
    found.get_strs(id)
}

// The texts of an argument that any number of words may follow.
fn texts<'a>(alloc: Global, found: &ArgMatches<'a>, id: &str) -> Result<Vec<&'a str>, AllocError>
    ensures { IfOk result
        (λ copy. map (λ text. text.now) copy.items ≡ texts id.now (rows_of (found_of found.now))) }
{
    match all(found, id) {
        Some(found) => Vec::from_slice(alloc, found),
        None => Ok(Vec::new(alloc)),
    }
}

fn gc<'a>(alloc: Global, found: &ArgMatches<'a>) -> Result<Option<Asked<'a>>, AllocError>
    ensures read { IfOk result
        (λ what. option_map task what ≡ gc_of (rows_of (found_of found.now))) }
    ensures few { IfOk result (λ what. IfSome what (λ what. commits_of what ≤ 1000000)) }
    ensures set { IfOk result (λ what. IfSome what IsSet) }
{
    let Some(journal) = text(found, "journal") else {
        return Ok(None);
    };
    let Some(default) = text(found, "default") else {
        return Ok(None);
    };
    let rules = texts(alloc, found, "rules")?;
    Ok(Some(Asked::Gc {
        journal,
        default,
        rules,
    }))
}

fn drill<'a>(found: &ArgMatches<'_>) -> Option<Asked<'a>>
    ensures read { option_map task result ≡ drill_of (rows_of (found_of found.now)) }
    ensures few { IfSome result (λ what. commits_of what ≤ 1000000) }
    ensures set { IfSome result IsSet }
{
    let seed = number(text(found, "seed")?, u64::MAX)?;
    let commits = number(text(found, "commits")?, MOST_COMMITS)?;
    Some(Asked::Drill { seed, commits })
}

// A number of workers or attempts.
fn few(found: &ArgMatches<'_>, id: &str) -> Option<u32>
    ensures number { result ≡ few_of id.now (rows_of (found_of found.now)) }
    ensures few { IfSome result IsFew }
{
    number_between(text(found, id)?, 1, 64)
}

fn connections(found: &ArgMatches<'_>) -> Option<u64>
    ensures { result ≡ connections_of (rows_of (found_of found.now)) }
{
    number(text(found, "connections")?, u64::MAX)
}

fn serve<'a>(found: &ArgMatches<'a>) -> Option<Asked<'a>>
    ensures read { option_map task result ≡ serve_of (rows_of (found_of found.now)) }
    ensures few { IfSome result (λ what. commits_of what ≤ 1000000) }
    ensures set { IfSome result IsSet }
{
    let journal = text(found, "journal")?;
    let address = text(found, "address")?;
    let workers = few(found, "workers")?;
    let attempts = few(found, "attempts")?;
    let connections = connections(found)?;
    Some(Asked::Serve {
        journal,
        address,
        workers,
        attempts,
        connections,
    })
}

// None: a word is missing, or a number has no reading.
fn asked_in<'a>(alloc: Global, matches: &ArgMatches<'a>) -> Result<Option<Asked<'a>>, AllocError>
    ensures read { IfOk result
        (λ what. option_map task what ≡ task_of (subcommand_rows_of matches.now)) }
    ensures few { IfOk result (λ what. IfSome what (λ what. commits_of what ≤ 1000000)) }
    ensures set { IfOk result (λ what. IfSome what IsSet) }
{
    let Some((name, found)) = entered(matches) else {
        return Ok(None);
    };
    match name {
        "script" => match text(found, "journal") {
            Some(journal) => Ok(Some(Asked::Script(journal))),
            None => Ok(None),
        },
        "check" => match text(found, "journal") {
            Some(journal) => Ok(Some(Asked::Check(journal))),
            None => Ok(None),
        },
        "migrate" => match text(found, "journal") {
            Some(journal) => Ok(Some(Asked::Migrate(journal))),
            None => Ok(None),
        },
        "gc" => gc(alloc, found),
        "drill" => Ok(drill(found)),
        "serve" => Ok(serve(found)),
        _ => Ok(None),
    }
}

/// The command that the words ask for; the first word is the program's own name.
#[tactic(auto, unfolding(crate::specs::Asked::asked))]
pub fn asked_of<'a>(alloc: Global, words: &'a [&'a str]) -> Result<Asked<'a>, WordsFault>
    ensures ok { IfOk result (λ what. asked (map (λ word. word.now) words.now) ≡ Some (task what)) }
    ensures usage { IsErrOf result WordsFault.Usage
        → asked (map (λ word. word.now) words.now) ≡ None }
    ensures few { IfOk result (λ what. commits_of what ≤ 1000000) }
    ensures set { IfOk result IsSet }
{
    match matches_of(alloc, words) {
        Ok(matches) => match asked_in(alloc, &matches) {
            Ok(Some(what)) => Ok(what),
            Ok(None) => Err(WordsFault::Usage),
            Err(_) => Err(WordsFault::NoMemory),
        },
        Err(fault) => Err(fault),
    }
}

/// The address at which the words ask to listen, if one is given; `None` says nothing.
pub fn address_of<'a>(alloc: Global, words: &'a [&'a str]) -> Option<&'a str>
    ensures { IfSome result
        (λ address. option_and_then address_in (asked (map (λ word. word.now) words.now))
        ≡ Some address.now) }
{
    match asked_of(alloc, words) {
        Ok(Asked::Serve { address, .. }) => Some(address),
        _ => None,
    }
}
