//! A drill.

ghost use Rattle.std.specs.Prelude.{ℕ, ◌+◌, ◌≡◌, ◌<◌, ◌≤◌, IfOk, IsTrue, OnOk, Some, string_bytes};
ghost use Rattle.sha2.specs.Sha256.{sha256};
ghost use Rattle.cat_desk.specs.Pass.{Keeps, number_of};
ghost use Rattle.cat_io.specs.Clocks.{Ticks, from};
ghost use Rattle.cat_io.specs.Memory.{clock_readings};
ghost use Rattle.cat_model.specs.Book.{first_book};
ghost use Rattle.cat_model.specs.Drafts.{nothing_open};
ghost use Rattle.cat_model.specs.Limits.{program_limits};
ghost use Rattle.cat_model.specs.Maps.{entry_of};
ghost use Rattle.cat_model.specs.WellMade.{is_well_made};
ghost use Rattle.cat_work.specs.Turns.{IsCommit};
ghost use Rattle.cat_work.specs.Passes.{IsAlone, IsReady, book_of};
ghost use Rattle.cat_drill.specs.Drill.{after_command, after_step, asked, book_at, drill_line, line_of, moments, on_main, told_of};

use crate::generator::{drawn, next_number};
use crate::request::{command_of, drawn_key};
use cat_codes::fault::NoMemory;
use cat_core::{Counts, Store};
use cat_desk::{Desk, NoGate, Pass};
use cat_io::MemoryClock;
use cat_keeper::MemKeeper;
use cat_model::command::Command;
use cat_model::entry::Entry;
use cat_model::limits::Limits;
use cat_model::refusal::Refusal;
use cat_names::key::ContentKey;
use cat_work::{commit, hold, release};
use std::alloc::{AllocError, Global};
use std::sync::Wait;

/// How often a commit is tried; on the only pass it is tried once.
const ATTEMPTS: u32 = 8;

/// The moment of the first step, and how much later each other is than the one before, in
/// microseconds.
const SECOND: u64 = 1_000_000;

// The entry of a key on `main`, in a turn that does nothing else.
fn entry_on_main<R: Wait>(
    rt: &R,
    desk: &Desk<Store<MemKeeper>>,
    pass: &mut Pass,
    key: &ContentKey,
) -> Option<Entry>
    requires ready { IsReady desk.now pass.old }
    requires alone { IsAlone pass.old }
    ensures entry { result ≡ entry_of (on_main (book_of desk.now pass.old).state) key.now }
    ensures book { book_of desk.now pass.new ≡ book_of desk.now pass.old }
    ensures ready { IsReady desk.now pass.new }
    ensures kept { Keeps desk.now pass.old pass.new }
{
    let held = desk.enter(rt, pass);
    held.value.history();
    let found = held.value.entry_on_main(key);
    desk.leave(held, pass);
    found
}

// What a step asks, which draws from a number.
#[tactic(auto, unfolding(crate::specs::Drill::asked))]
fn asked<R: Wait>(
    rt: &R,
    alloc: Global,
    desk: &Desk<Store<MemKeeper>>,
    pass: &mut Pass,
    step: u64,
    number: u64,
) -> Result<Command, NoMemory>
    requires step { step ≤ 1000000 }
    requires ready { IsReady desk.now pass.old }
    requires alone { IsAlone pass.old }
    ensures command { IfOk result
        (λ command. command ≡ asked step number (book_of desk.now pass.old)) }
    ensures made { IfOk result (λ command. IsTrue (is_well_made sha256 command)) }
    ensures kind { IfOk result IsCommit }
    ensures book { book_of desk.now pass.new ≡ book_of desk.now pass.old }
    ensures ready { IsReady desk.now pass.new }
    ensures kept { Keeps desk.now pass.old pass.new }
{
    let drawn = drawn(number);
    let Ok(key) = drawn_key(alloc, drawn) else {
        return Err(NoMemory);
    };
    let found = entry_on_main(rt, desk, pass, &key);
    command_of(alloc, step, drawn, key, found)
}

// A command that is refused leaves the catalogue as it is.
fn carry_out<R: Wait>(
    rt: &R,
    alloc: Global,
    desk: &Desk<Store<MemKeeper>>,
    pass: &mut Pass,
    clock: &mut MemoryClock,
    command: &Command,
) -> Result<(), NoMemory>
    requires made { IsTrue (is_well_made sha256 command.now) }
    requires kind { IsCommit command.now }
    requires ready { IsReady desk.now pass.old }
    requires alone { IsAlone pass.old }
    requires number { number_of pass.old ≡ 1 }
    ensures made { OnOk result
        ((moment : ℕ) × Ticks (clock_readings clock.old) (clock_readings clock.new) moment
        × (book_of desk.now pass.new
        ≡ after_command command.now moment (book_of desk.now pass.old))) }
    ensures ready { IsReady desk.now pass.new }
    ensures kept { Keeps desk.now pass.old pass.new }
{
    let mut gate = NoGate {};
    match commit(rt, alloc, desk, pass, &mut gate, clock, ATTEMPTS, command) {
        Ok(_) => Ok(()),
        Err(refused) => match refused.why {
            Refusal::NoMemory => Err(NoMemory),
            // A log in memory meets no fault, which the keeper's type doesn't say.
            Refusal::Fault => Err(NoMemory),
            Refusal::Down(_) => Err(NoMemory),
            _ => Ok(()),
        },
    }
}

// The step after so many, at its moment.
fn make_step<R: Wait>(
    rt: &R,
    alloc: Global,
    desk: &Desk<Store<MemKeeper>>,
    pass: &mut Pass,
    clock: &mut MemoryClock,
    made: u64,
    number: u64,
) -> Result<(), NoMemory>
    requires made { made < 1000000 }
    requires clock { clock_readings clock.old ≡ Some (from made moments) }
    requires ready { IsReady desk.now pass.old }
    requires alone { IsAlone pass.old }
    requires number { number_of pass.old ≡ 1 }
    ensures step { OnOk result
        (book_of desk.now pass.new ≡ after_step (made + 1) number (book_of desk.now pass.old)) }
    ensures clock { OnOk result (clock_readings clock.new ≡ Some (from (made + 1) moments)) }
    ensures ready { IsReady desk.now pass.new }
    ensures kept { Keeps desk.now pass.old pass.new }
{
    match asked(rt, alloc, desk, pass, made + 1, number) {
        Ok(command) => carry_out(rt, alloc, desk, pass, clock, &command),
        Err(fault) => Err(fault),
    }
}

// So many steps from a seed.
fn make_steps<R: Wait>(
    rt: &R,
    alloc: Global,
    desk: &Desk<Store<MemKeeper>>,
    pass: &mut Pass,
    seed: u64,
    commits: u64,
) -> Result<(), NoMemory>
    requires commits { commits ≤ 1000000 }
    requires first { book_of desk.now pass.old ≡ first_book sha256 program_limits }
    requires ready { IsReady desk.now pass.old }
    requires alone { IsAlone pass.old }
    requires number { number_of pass.old ≡ 1 }
    ensures made { OnOk result (book_of desk.now pass.new ≡ book_at seed commits) }
    ensures ready { IsReady desk.now pass.new }
    ensures kept { Keeps desk.now pass.old pass.new }
{
    let mut clock = MemoryClock::new(SECOND, SECOND);
    let mut number = seed;
    'steps: for made in 0..commits {
        number = next_number(number);
        match make_step(rt, alloc, desk, pass, &mut clock, made, number) {
            Ok(()) => {}
            Err(fault) => return Err(fault),
        }
    }
    Ok(())
}

#[tactic(auto, unfolding(crate::specs::Drill::line_of))]
fn line(alloc: Global, counts: &Counts, head: &str) -> Result<String, AllocError>
    ensures { IfOk result
        (λ line. string_bytes line
        ≡ line_of counts.now.commits counts.now.keys counts.now.contents counts.now.place
        head.now) }
{
    let Counts {
        place,
        commits,
        contents,
        keys,
        ..
    } = *counts;
    format!(in alloc;
        "commits {commits} keys {keys} contents {contents} place {place} head {head}\n"
    )
}

fn told_of(alloc: Global, store: &Store<MemKeeper>) -> Result<String, NoMemory>
    ensures { IfOk result (λ line. string_bytes line ≡ told_of store.now.book.state) }
{
    let counts = store.counts();
    let head = hex::encode(alloc, counts.head.bytes.as_slice())?;
    Ok(line(alloc, &counts, head.as_str())?)
}

/// A store of an empty catalogue, with its log in memory.
fn empty_store(alloc: Global) -> Result<Store<MemKeeper>, NoMemory>
    ensures book { IfOk result (λ store. store.book ≡ first_book sha256 program_limits) }
    ensures closed { IfOk result (λ store. store.left_open ≡ nothing_open) }
{
    let keeper = MemKeeper::new(alloc, Vec::new(alloc));
    match Store::new(alloc, keeper, Limits::program()) {
        Ok(store) => Ok(store),
        Err((_, fault)) => Err(fault),
    }
}

/// The line of so many steps from a seed.
#[tactic(auto, unfolding(crate::specs::Drill::drill_line))]
pub fn drill<R: Wait>(rt: &R, alloc: Global, seed: u64, commits: u64) -> Result<String, NoMemory>
    requires { commits ≤ 1000000 }
    ensures { IfOk result (λ line. string_bytes line ≡ drill_line seed commits) }
{
    let store = empty_store(alloc)?;
    match hold(alloc, store) {
        Ok((desk, mut pass)) => {
            let made = make_steps(rt, alloc, &desk, &mut pass, seed, commits);
            let store = release(desk, pass);
            match made {
                Ok(()) => told_of(alloc, &store),
                Err(fault) => Err(fault),
            }
        }
        Err((_, fault)) => Err(fault),
    }
}
