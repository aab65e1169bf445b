//! All that the program does.

ghost use Rattle.std.specs.Prelude.{◌≡◌, ◌≢◌, ◌≤◌, ◌⊎◌, IsTrue, List, None, Some, map, ℕ};
ghost use Rattle.std.specs.Option.{option_and_then};
ghost use Rattle.cat_io.specs.Causes.{Rose};
ghost use Rattle.cat_io.specs.Places.{OthersStay};
ghost use Rattle.cat_words.specs.Asked.{IsFew, asked, check, drill, gc, migrate, script, serve};
ghost use Rattle.cat_policy.specs.declared.policy.Policy.{Policy};
ghost use Rattle.cat_policy.specs.Policies.{policy_of};
ghost use Rattle.cat_drill.specs.Drill.{drill_line};
ghost use Rattle.cat_serve.specs.Workers.{ends_of};
ghost use Rattle.cat_cli.specs.Collecting.{CollectsKnown};
ghost use Rattle.cat_cli.specs.Hosting.{CountStays, heard_of};
ghost use Rattle.cat_cli.specs.Journals.{DisksFell, IsBack, RoseBy, told_at};
ghost use Rattle.cat_cli.specs.Lines.{no_memory_line, usage_line};
ghost use Rattle.cat_cli.specs.Runs.{ChecksKnown, DrillsKnown, MigratesKnown, SaysKnown, TellsKnown, command_of, ends_drill, journal_of, spares_disks, spares_listener, tells_all};
ghost use Rattle.cat_cli.specs.Serving.{ServesKnown};
ghost use Rattle.cat_cli.specs.Surviving.{images_at};

use crate::checking::check;
use crate::collecting::gc;
use crate::migrating::migrate;
use crate::scripting::script;
use crate::serving::{ServeOptions, serve};
use crate::status::Status;
use crate::telling::{tell, tell_no_memory};
use cat_http::write_all;
use cat_io::{Clock, Disks, Listener, Sink, Source};
use cat_words::{Asked, WordsFault, asked_of};
use std::alloc::Global;
use std::sync::Wait;
use std::thread::Threads;

/// Runs the command that the words name, the first word being the program's own name. `script`
/// answers the requests of the source, one after another, on the catalogue of the journal, which
/// keeps each change before it is told: the replies alone go to the sink. `check` opens the journal
/// and writes one line on what it holds. An empty file becomes a journal. `migrate` opens it, makes
/// it one of format 2, in which there are checkpoints, and writes one line on that. `drill` makes
/// commits from a seed in memory, without disks, source or clock, and writes one line. `serve` opens
/// the journal, and then listens: so many workers answer the requests of so many connections at
/// once, and nothing goes to the sink, unless the listener fails or memory runs out before. What
/// goes wrong on a connection ends that one alone. `gc` opens the journal and removes the contents
/// that nothing keeps under the policy of its words, as its cutoffs are at one reading of the clock:
/// the journal has one entry more, and one line tells how many contents were kept and removed. No
/// disk is opened for words that aren't a policy.
#[allow(clippy::too_many_arguments)]
pub fn run<R: Threads + Wait + Sync, O: Disks, S: Source, K: Sink, C: Clock + Drop, L: Listener>(
    rt: &R,
    alloc: Global,
    words: &[&str],
    disks: &mut O,
    source: &mut S,
    sink: &mut K,
    clock: &mut C,
    listener: &mut L,
) -> Status
    // The status for usage comes exactly where the words aren't a command's, want of memory aside.
    ensures usage { result ≡ Status.Usage → command_of (map (λ word. word.now) words.now) ≡ None }
    ensures refused { command_of (map (λ word. word.now) words.now) ≡ None
        → (result ≡ Status.Usage) ⊎ (result ≡ Status.NoMemory) }
    ensures usage_line { result ≡ Status.Usage
        → TellsKnown usage_line (K.held sink.old) (K.held sink.new) (K.faults sink.old)
        (K.faults sink.new) }
    ensures memory_line { command_of (map (λ word. word.now) words.now) ≡ None
        → result ≡ Status.NoMemory
        → TellsKnown no_memory_line (K.held sink.old) (K.held sink.new) (K.faults sink.old)
        (K.faults sink.new) }
    // What a script writes are the replies to the requests in the bytes of the source, the journal
    // has the entries of all that they changed, and the clock stands where their moments left it.
    // Its base is that of the last checkpoint among them, or the one that it had. Once a session is
    // held the disks' count of faults rises only where an append fails, and by the count that is
    // told of it, and only there a fault of theirs is told. Where a read failed, no whole request
    // was read that isn't answered. A crash at any moment leaves a journal with the old entries and
    // a front of these, or what one might have left before. Where no session was held neither the
    // source nor the clock was read, and the journal stands for what it did: its bytes are as they
    // were, or of an empty file those of a new journal, and where a fault of the disks is told, no
    // more than these. So it is of each command that opens no catalogue, but for a migration where
    // a fault of the disks is told.
    ensures replies { (journal : List ℕ)
        → asked (map (λ word. word.now) words.now) ≡ Some (script journal)
        → SaysKnown
        (DisksFell (O.refuses disks.old journal) O.D.faults (O.at_path disks.new journal)
        (O.faults disks.old) (O.faults disks.new))
        (RoseBy (O.faults disks.old) (O.faults disks.new))
        (O.faults disks.new ≡ O.faults disks.old)
        ((source.new ≡ source.old) × (clock.new ≡ clock.old)) (C.ahead clock.old)
        (C.ahead clock.new) (S.left source.old) (S.left source.new) (K.held sink.old) result (K.held sink.new)
        (K.faults sink.old) (K.faults sink.new) (told_at O.D.told (O.at_path disks.old journal))
        (told_at O.D.told (O.at_path disks.new journal))
        (images_at O.D.may_leave O.D.moment O.D.left_since (O.at_path disks.old journal)
        (O.at_path disks.new journal)) }
    // What a check writes is the line of the catalogue that the journal's entries lead to. The
    // journal's bytes are as they were, or of an empty file those of a new journal.
    ensures checked { (journal : List ℕ)
        → asked (map (λ word. word.now) words.now) ≡ Some (check journal)
        → ChecksKnown
        (DisksFell (O.refuses disks.old journal) O.D.faults (O.at_path disks.new journal)
        (O.faults disks.old) (O.faults disks.new)) (O.faults disks.new ≡ O.faults disks.old)
        (K.held sink.old) result (K.held sink.new) (K.faults sink.old) (K.faults sink.new)
        (told_at O.D.told (O.at_path disks.old journal))
        (told_at O.D.told (O.at_path disks.new journal))
        (images_at O.D.may_leave O.D.moment O.D.left_since (O.at_path disks.old journal)
        (O.at_path disks.new journal)) }
    // A migration opens the journal as a check does. Its bytes are then those before but for the
    // format's gate, which is open, or of an empty file those of a new journal; what it writes is the
    // line of the place. A crash at any moment leaves a journal that stands for the same, or what one
    // might have left before.
    ensures migrated { (journal : List ℕ)
        → asked (map (λ word. word.now) words.now) ≡ Some (migrate journal)
        → MigratesKnown
        (DisksFell (O.refuses disks.old journal) O.D.faults (O.at_path disks.new journal)
        (O.faults disks.old) (O.faults disks.new)) (O.faults disks.new ≡ O.faults disks.old)
        (K.held sink.old) result (K.held sink.new) (K.faults sink.old) (K.faults sink.new)
        (told_at O.D.told (O.at_path disks.old journal))
        (told_at O.D.told (O.at_path disks.new journal))
        (images_at O.D.may_leave O.D.moment O.D.left_since (O.at_path disks.old journal)
        (O.at_path disks.new journal)) }
    // A collection adds the entry of one sweep to the journal, that of the catalogue as it was
    // opened, under the policy of the words at one reading of the clock, and what it writes is the
    // line of its reply: behind all that the journal had stands just this entry, where its append
    // didn't fail. Once the catalogue is opened the disks' count of faults rises, and a fault of
    // theirs is told, only where that fails. It is refused for a limit exactly where the rules
    // refuse that sweep so. A crash at any moment leaves a journal with the old entries, with or
    // without this one, or what one might have left before.
    ensures collected { (journal default : List ℕ) (rules : List (List ℕ)) (policy : Policy)
        → asked (map (λ word. word.now) words.now) ≡ Some (gc journal default rules)
        → policy_of default rules ≡ Some policy
        → CollectsKnown
        (DisksFell (O.refuses disks.old journal) O.D.faults (O.at_path disks.new journal)
        (O.faults disks.old) (O.faults disks.new)) (O.faults disks.new ≡ O.faults disks.old)
        (clock.new ≡ clock.old) policy (C.ahead clock.old) (C.ahead clock.new)
        (record {
          held = K.held sink.old;
          after = K.held sink.new;
          before = K.faults sink.old;
          now = K.faults sink.new;
        }) (told_at O.D.told (O.at_path disks.old journal))
        (told_at O.D.told (O.at_path disks.new journal))
        (images_at O.D.may_leave O.D.moment O.D.left_since (O.at_path disks.old journal)
        (O.at_path disks.new journal)) result }
    // What a drill writes is the line of the catalogue that its seed and its steps make.
    ensures drilled { (seed commits : ℕ)
        → asked (map (λ word. word.now) words.now) ≡ Some (drill seed commits)
        → DrillsKnown (drill_line seed commits) (K.held sink.old) result (K.held sink.new)
        (K.faults sink.old) (K.faults sink.new) }
    ensures drill_ends { (seed commits : ℕ)
        → asked (map (λ word. word.now) words.now) ≡ Some (drill seed commits)
        → IsTrue (ends_drill result) }
    // On the catalogue of the journal so many workers serve the connections of the address: each
    // session on a pass of one desk, and what its pass had seen is a beginning of the one legal log
    // that the journal has at the end, which begins with the log that was opened. A crash at any
    // moment leaves a journal with the old entries and a front of what was added, or what one might
    // have left before. Once the catalogue is opened the disks' count of faults rises, and a fault
    // of theirs is told, only where an append fails, and a request is told so. Where no call of the
    // listener failed its own connections were all given, and stand served.
    ensures served { (journal address : List ℕ) (workers attempts connections : ℕ)
        → asked (map (λ word. word.now) words.now)
        ≡ Some (serve journal address workers attempts connections)
        → ServesKnown (ends_of L.In.left L.In.faults L.Out.held L.Out.faults)
        (DisksFell (O.refuses disks.old journal) O.D.faults (O.at_path disks.new journal)
        (O.faults disks.old) (O.faults disks.new))
        (RoseBy (O.faults disks.old) (O.faults disks.new))
        (O.faults disks.new ≡ O.faults disks.old)
        ((listener.new ≡ listener.old) × (clock.new ≡ clock.old)) (clock.new ≡ clock.old)
        (record {
          address = address;
          connections = connections;
          workers = workers;
          attempts = attempts;
        })
        (heard_of L.tells L.listens L.waiting L.returned L.rejoined L.out L.twins L.dealt L.faults
        listener.old)
        (heard_of L.tells L.listens L.waiting L.returned L.rejoined L.out L.twins L.dealt L.faults
        listener.new) (C.ahead clock.old) (C.ahead clock.new)
        (record {
          held = K.held sink.old;
          after = K.held sink.new;
          before = K.faults sink.old;
          now = K.faults sink.new;
        }) (told_at O.D.told (O.at_path disks.old journal))
        (told_at O.D.told (O.at_path disks.new journal))
        (images_at O.D.may_leave O.D.moment O.D.left_since (O.at_path disks.old journal)
        (O.at_path disks.new journal)) result }
    // A fault comes only where the count of faults rose; the disks' only at the journal's path, by
    // an open that they refuse or by a failed call of its disk.
    ensures read { result ≡ Status.ReadFault → Rose (S.faults source.old) (S.faults source.new) }
    ensures write { result ≡ Status.WriteFault → Rose (K.faults sink.old) (K.faults sink.new) }
    ensures disk { result ≡ Status.DiskFault
        → (journal : List ℕ)
        × (option_and_then journal_of (asked (map (λ word. word.now) words.now)) ≡ Some journal)
        × DisksFell (O.refuses disks.old journal) O.D.faults (O.at_path disks.new journal)
        (O.faults disks.old) (O.faults disks.new) }
    ensures listener_fault { result ≡ Status.ListenerFault
        → Rose (L.faults listener.old) (L.faults listener.new) }
    // The source's count stays unless a read failed, the sink's where it took all that was written,
    // and the disks' where no fault of theirs was to be told.
    ensures source_stays { result ≢ Status.ReadFault → S.faults source.new ≡ S.faults source.old }
    ensures sink_stays { IsTrue (tells_all result) → K.faults sink.new ≡ K.faults sink.old }
    ensures disks_stay { IsTrue (spares_disks result) → O.faults disks.new ≡ O.faults disks.old }
    ensures listener_stays { IsTrue (spares_listener result)
        → CountStays (L.faults listener.old) (L.faults listener.new) }
    // The journal's disk goes back where it stood, and no other is touched.
    ensures back { (journal : List ℕ)
        → option_and_then journal_of (asked (map (λ word. word.now) words.now)) ≡ Some journal
        → IsBack (O.at_path disks.old journal) (O.at_path disks.new journal)
        × OthersStay journal (O.at_path disks.old) (O.at_path disks.new) }
    ensures untouched { option_and_then journal_of (command_of (map (λ word. word.now) words.now))
        ≡ None
        → disks.new ≡ disks.old }
    // Only a script reads the source, only a script, serving or a collection the clock, and only
    // serving listens.
    ensures still { ((journal : List ℕ)
        → asked (map (λ word. word.now) words.now) ≡ Some (script journal)
        → ⊥)
        → source.new ≡ source.old }
    ensures clock { ((journal : List ℕ)
        → asked (map (λ word. word.now) words.now) ≡ Some (script journal)
        → ⊥)
        → ((journal address : List ℕ) (workers attempts connections : ℕ)
        → asked (map (λ word. word.now) words.now)
        ≡ Some (serve journal address workers attempts connections)
        → ⊥)
        → ((journal default : List ℕ) (rules : List (List ℕ))
        → command_of (map (λ word. word.now) words.now) ≡ Some (gc journal default rules)
        → ⊥)
        → clock.new ≡ clock.old }
    ensures listener { ((journal address : List ℕ) (workers attempts connections : ℕ)
        → asked (map (λ word. word.now) words.now)
        ≡ Some (serve journal address workers attempts connections)
        → ⊥)
        → listener.new ≡ listener.old }
{
    match asked_of(alloc, words) {
        Ok(Asked::Script(journal)) => script(rt, alloc, journal, disks, source, sink, clock),
        Ok(Asked::Check(journal)) => check(alloc, journal, disks, sink),
        Ok(Asked::Migrate(journal)) => migrate(alloc, journal, disks, sink),
        Ok(
            Asked::Gc {
                journal,
                default,
                rules,
            },
        ) => gc(rt, alloc, journal, default, &rules, disks, sink, clock),
        Ok(Asked::Drill { seed, commits }) => drilled(rt, alloc, seed, commits, sink),
        Ok(
            Asked::Serve {
                journal,
                address,
                workers,
                attempts,
                connections,
            },
        ) => {
            let options = ServeOptions {
                address,
                connections,
                workers,
                attempts,
            };
            serve(rt, alloc, journal, options, disks, sink, clock, listener)
        }
        Err(WordsFault::Usage) => {
            tell(sink, b"nessie: usage\n");
            Status::Usage
        }
        Err(WordsFault::NoMemory) => tell_no_memory(sink),
    }
}

// The line of a drill.
fn drilled<R: Wait, K: Sink>(rt: &R, alloc: Global, seed: u64, commits: u64, sink: &mut K) -> Status
    requires { commits ≤ 1000000 }
    ensures drilled { DrillsKnown (drill_line seed commits) (K.held sink.old) result
        (K.held sink.new) (K.faults sink.old) (K.faults sink.new) }
    ensures ends { IsTrue (ends_drill result) }
    ensures write { result ≡ Status.WriteFault → Rose (K.faults sink.old) (K.faults sink.new) }
    ensures stays { IsTrue (tells_all result) → K.faults sink.new ≡ K.faults sink.old }
{
    match cat_drill::drill(rt, alloc, seed, commits) {
        Ok(line) => match write_all(sink, line.as_bytes()) {
            Ok(()) => Status::Done,
            Err(_) => Status::WriteFault,
        },
        Err(_) => tell_no_memory(sink),
    }
}
