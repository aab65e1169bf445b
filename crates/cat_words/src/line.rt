//! The command line.

ghost use Rattle.std.specs.Prelude.{◌≡◌, [], IfErr, IfOk, IsErrOf, map, false, true};
ghost use Rattle.clap.specs.Words.{app_of, fault_of, kind_of, rule_of, shape_of, subcommand_of, subcommand_rows_of};
ghost use Rattle.clap.specs.declared.builder.command.Command.TheViews.{out-Command};
ghost use Rattle.cat_words.specs.Asked.{is_free};
ghost use Rattle.cat_words.specs.Line.{bare_line, check_shape, default_rule, drill_shape, gc_by_default_shape, gc_shape, line, migrate_shape, offline_line, option_rule, script_shape, serve_at_shape, serve_by_shape, serve_shape, session_line, word_rule, words_rule};

use clap::error::ErrorKind;
use clap::{Arg, ArgAction, ArgMatches, Command, Error};
use std::alloc::{AllocError, Global};

/// Why the words gave no command.
#[derive(Clone, Copy, Debug, PartialEq, Eq, Drop, thiserror::Error)]
pub enum WordsFault {
    /// They aren't the command line's, or a number among them has no reading.
    #[error("the words aren't the command line's")]
    Usage,
    #[error("memory ran out")]
    NoMemory,
}

fn word<'a>(alloc: Global, id: &'a str) -> Arg<'a>
    ensures rule { rule_of result ≡ word_rule id.entry.now }
    ensures local { result.global ≡ false }
{
    Arg::new(alloc, id).required(true).action(ArgAction::Set)
}

// Any number of words.
fn words<'a>(alloc: Global, id: &'a str) -> Arg<'a>
    ensures rule { rule_of result ≡ words_rule id.entry.now }
    ensures local { result.global ≡ false }
{
    Arg::new(alloc, id).action(ArgAction::Append)
}

fn option<'a>(alloc: Global, id: &'a str) -> Arg<'a>
    ensures rule { rule_of result ≡ option_rule id.entry.now }
    ensures local { result.global ≡ false }
{
    Arg::new(alloc, id)
        .long(id)
        .required(true)
        .action(ArgAction::Set)
}

fn option_or<'a>(alloc: Global, id: &'a str, value: &'a str) -> Arg<'a>
    ensures rule { rule_of result ≡ default_rule id.entry.now value.entry.now }
    ensures local { result.global ≡ false }
{
    Arg::new(alloc, id)
        .long(id)
        .action(ArgAction::Set)
        .default_value(value)
}

fn script<'a>(alloc: Global) -> Result<Command<'a>, AllocError>
    ensures shape { IfOk result (λ c. shape_of c ≡ script_shape) }
    ensures local { IfOk result (λ c. (out-Command c).has_globals ≡ false) }
{
    Command::new(alloc, "script").arg(word(alloc, "journal"))
}

fn check<'a>(alloc: Global) -> Result<Command<'a>, AllocError>
    ensures shape { IfOk result (λ c. shape_of c ≡ check_shape) }
    ensures local { IfOk result (λ c. (out-Command c).has_globals ≡ false) }
{
    Command::new(alloc, "check").arg(word(alloc, "journal"))
}

fn migrate<'a>(alloc: Global) -> Result<Command<'a>, AllocError>
    ensures shape { IfOk result (λ c. shape_of c ≡ migrate_shape) }
    ensures local { IfOk result (λ c. (out-Command c).has_globals ≡ false) }
{
    Command::new(alloc, "migrate").arg(word(alloc, "journal"))
}

fn drill<'a>(alloc: Global) -> Result<Command<'a>, AllocError>
    ensures shape { IfOk result (λ c. shape_of c ≡ drill_shape) }
    ensures local { IfOk result (λ c. (out-Command c).has_globals ≡ false) }
{
    Command::new(alloc, "drill")
        .arg(option(alloc, "seed"))?
        .arg(option(alloc, "commits"))
}

fn gc_by_default<'a>(alloc: Global) -> Result<Command<'a>, AllocError>
    ensures shape { IfOk result (λ c. shape_of c ≡ gc_by_default_shape) }
    ensures local { IfOk result (λ c. (out-Command c).has_globals ≡ false) }
{
    Command::new(alloc, "gc")
        .arg(word(alloc, "journal"))?
        .arg(word(alloc, "default"))
}

fn gc<'a>(alloc: Global) -> Result<Command<'a>, AllocError>
    ensures shape { IfOk result (λ c. shape_of c ≡ gc_shape) }
    ensures local { IfOk result (λ c. (out-Command c).has_globals ≡ false) }
{
    gc_by_default(alloc)?.arg(words(alloc, "rules"))
}

fn serve_at<'a>(alloc: Global) -> Result<Command<'a>, AllocError>
    ensures shape { IfOk result (λ c. shape_of c ≡ serve_at_shape) }
    ensures local { IfOk result (λ c. (out-Command c).has_globals ≡ false) }
{
    Command::new(alloc, "serve")
        .arg(word(alloc, "journal"))?
        .arg(word(alloc, "address"))
}

fn serve_by<'a>(alloc: Global) -> Result<Command<'a>, AllocError>
    ensures shape { IfOk result (λ c. shape_of c ≡ serve_by_shape) }
    ensures local { IfOk result (λ c. (out-Command c).has_globals ≡ false) }
{
    serve_at(alloc)?
        .arg(option_or(alloc, "workers", "4"))?
        .arg(option_or(alloc, "attempts", "8"))
}

fn serve<'a>(alloc: Global) -> Result<Command<'a>, AllocError>
    ensures shape { IfOk result (λ c. shape_of c ≡ serve_shape) }
    ensures local { IfOk result (λ c. (out-Command c).has_globals ≡ false) }
{
    serve_by(alloc)?.arg(option_or(alloc, "connections", "0"))
}

fn bare<'a>(alloc: Global) -> Command<'a>
    ensures { app_of result ≡ bare_line }
{
    Command::new(alloc, "nessie").subcommand_required(true)
}

// The commands of a journal that is there.
fn session<'a>(alloc: Global) -> Result<Command<'a>, AllocError>
    ensures { IfOk result (λ c. app_of c ≡ session_line) }
{
    let script = script(alloc)?;
    let check = check(alloc)?;
    let migrate = migrate(alloc)?;
    bare(alloc)
        .subcommand(script)?
        .subcommand(check)?
        .subcommand(migrate)
}

// The commands that serve no connections.
fn offline<'a>(alloc: Global) -> Result<Command<'a>, AllocError>
    ensures { IfOk result (λ c. app_of c ≡ offline_line) }
{
    let gc = gc(alloc)?;
    let drill = drill(alloc)?;
    session(alloc)?.subcommand(gc)?.subcommand(drill)
}

fn command<'a>(alloc: Global) -> Result<Command<'a>, AllocError>
    ensures { IfOk result (λ c. app_of c ≡ line) }
{
    let serve = serve(alloc)?;
    offline(alloc)?.subcommand(serve)
}

fn parse<'a>(alloc: Global, words: &'a [&'a str]) -> Result<ArgMatches<'a>, Error>
    ensures rows { IfOk result
        (λ m. subcommand_rows_of m ≡ subcommand_of line (map (λ word. word.now) words.now)) }
    ensures taken { IfOk result (λ m. fault_of line (map (λ word. word.now) words.now) ≡ []) }
    ensures fails { IfErr result
        (λ e. fault_of line (map (λ word. word.now) words.now) ≡ []
        → kind_of e ≡ ErrorKind.OutOfMemory) }
{
    command(alloc)?.try_get_matches_from(words)
}

/// What the words give, where they are the command line's.
pub(crate) fn matches_of<'a>(
    alloc: Global,
    words: &'a [&'a str],
) -> Result<ArgMatches<'a>, WordsFault>
    ensures rows { IfOk result
        (λ m. subcommand_rows_of m ≡ subcommand_of line (map (λ word. word.now) words.now)) }
    ensures taken { IfOk result
        (λ m. is_free (fault_of line (map (λ word. word.now) words.now)) ≡ true) }
    ensures usage { IsErrOf result WordsFault.Usage
        → is_free (fault_of line (map (λ word. word.now) words.now)) ≡ false }
{
    match parse(alloc, words) {
        Ok(matches) => Ok(matches),
        Err(error) => match error.kind() {
            ErrorKind::OutOfMemory => Err(WordsFault::NoMemory),
            _ => Err(WordsFault::Usage),
        },
    }
}
