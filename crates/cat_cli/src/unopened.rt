//! Why a journal isn't opened, and what is told of it.

ghost use Rattle.std.specs.Prelude.{◌≡◌, ◌≢◌, ◌⊎◌, IfOk, IsTrue, string_bytes, false, true};
ghost use Rattle.cat_io.specs.Causes.{Rose};
ghost use Rattle.cat_cli.specs.Lines.{unopened_line};
ghost use Rattle.cat_cli.specs.Opening.{EndsFor, RefusedKnown, is_unreadable};
ghost use Rattle.cat_cli.specs.Runs.{tells_all};

use crate::status::Status;
use crate::telling::{tell, tell_disk_fault, tell_no_memory};
use cat_core::StoreFault;
use cat_io::Sink;
use cat_journal::OpenFault;
use std::alloc::{AllocError, Global};
use thiserror::Error;

/// Why a journal isn't opened.
#[derive(Clone, Copy, Debug, Error)]
pub(crate) enum Unopened {
    /// The disk failed, or the disks did.
    #[error("the disk failed")]
    Fault,
    /// It has another version.
    #[error("the journal is of version {0}")]
    Version(u32),
    /// The offset of the first damage.
    #[error("the journal is damaged at offset {0}")]
    Damaged(u64),
    /// The place of the first entry that isn't legal, or of a base that no log may start from.
    #[error("the entry at place {0} may not stand there")]
    Illegal(u64),
    #[error("memory ran out")]
    NoMemory,
}

impl From<OpenFault> for Unopened {
    ghost use Rattle.std.specs.Prelude.{◌≡◌};
    ghost use Rattle.cat_cli.specs.Opening.{by_journal};

    ghost from_gives = { λ fault why. why ≡ by_journal fault };

    fn from(fault: OpenFault) -> Unopened {
        match fault {
            OpenFault::Fault => Unopened::Fault,
            OpenFault::Version(number) => Unopened::Version(number),
            OpenFault::Damaged(offset) => Unopened::Damaged(offset),
            OpenFault::NoMemory => Unopened::NoMemory,
        }
    }
}

impl From<StoreFault> for Unopened {
    ghost use Rattle.std.specs.Prelude.{◌≡◌};
    ghost use Rattle.cat_cli.specs.Opening.{by_store};

    ghost from_gives = { λ fault why. why ≡ by_store fault };

    fn from(fault: StoreFault) -> Unopened {
        match fault {
            StoreFault::Fault => Unopened::Fault,
            StoreFault::Illegal(place) => Unopened::Illegal(place),
            StoreFault::NoMemory => Unopened::NoMemory,
        }
    }
}

#[tactic(auto, unfolding(crate::specs::Lines::unopened_line))]
fn line(alloc: Global, why: Unopened) -> Result<String, AllocError>
    ensures { IfOk result (λ line. string_bytes line ≡ unopened_line why) }
{
    match why {
        Unopened::Fault => String::from_str(alloc, "nessie: disk fault\n"),
        Unopened::Version(number) => format!(in alloc; "nessie: version {number}\n"),
        Unopened::Damaged(offset) => format!(in alloc; "nessie: damaged at {offset}\n"),
        Unopened::Illegal(place) => format!(in alloc; "nessie: illegal entry {place}\n"),
        Unopened::NoMemory => String::from_str(alloc, "nessie: no memory\n"),
    }
}

// Tells what keeps a journal from being read.
fn tell_unreadable<K: Sink>(alloc: Global, why: Unopened, sink: &mut K) -> Status
    requires { is_unreadable why ≡ true }
    ensures told { RefusedKnown why (K.held sink.old) result (K.held sink.new) (K.faults sink.old)
        (K.faults sink.new) }
    ensures reason { EndsFor why result }
    ensures fault { result ≢ Status.DiskFault }
    ensures write { result ≢ Status.WriteFault }
    ensures silent { tells_all result ≡ false }
    ensures taken { result ≢ Status.Usage }
    ensures unread { result ≢ Status.ReadFault }
    ensures unheard { result ≢ Status.ListenerFault }
{
    match line(alloc, why) {
        Ok(line) => {
            tell(sink, line.as_bytes());
            Status::Unreadable
        }
        Err(_) => tell_no_memory(sink),
    }
}

/// Tells why no journal is opened.
pub(crate) fn refuse<K: Sink>(alloc: Global, why: Unopened, sink: &mut K) -> Status
    ensures told { RefusedKnown why (K.held sink.old) result (K.held sink.new) (K.faults sink.old)
        (K.faults sink.new) }
    ensures reason { EndsFor why result }
    ensures fault { result ≡ Status.DiskFault → why ≡ Unopened.Fault }
    ensures write { result ≡ Status.WriteFault → Rose (K.faults sink.old) (K.faults sink.new) }
    ensures ends { why ≡ Unopened.Fault
        → (result ≡ Status.DiskFault) ⊎ (result ≡ Status.WriteFault) }
    ensures stays { IsTrue (tells_all result) → K.faults sink.new ≡ K.faults sink.old }
    ensures taken { result ≢ Status.Usage }
    ensures unread { result ≢ Status.ReadFault }
    ensures unheard { result ≢ Status.ListenerFault }
{
    match why {
        Unopened::Fault => tell_disk_fault(sink),
        Unopened::NoMemory => tell_no_memory(sink),
        Unopened::Version(_) => tell_unreadable(alloc, why, sink),
        Unopened::Damaged(_) => tell_unreadable(alloc, why, sink),
        Unopened::Illegal(_) => tell_unreadable(alloc, why, sink),
    }
}
