//! Lines that a run tells.

ghost use Rattle.std.specs.Prelude.{◌≡◌, ◌≢◌, ◌⊎◌, Bool, IsTrue};
ghost use Rattle.cat_io.specs.Causes.{Rose};
ghost use Rattle.cat_cli.specs.Lines.{listener_fault_line, no_memory_line};
ghost use Rattle.cat_cli.specs.Opening.{FaultKnown};
ghost use Rattle.cat_cli.specs.Runs.{TellsKnown, tells_all};
ghost use Rattle.cat_cli.specs.Serving.{IsWritten, status_after};

use crate::status::Status;
use cat_http::write_all;
use cat_io::Sink;
use cat_serve::Served;

/// Writes a line, as far as the sink takes it.
pub(crate) fn tell<K: Sink>(sink: &mut K, line: &[u8])
    ensures { TellsKnown line.now (K.held sink.old) (K.held sink.new) (K.faults sink.old)
        (K.faults sink.new) }
{
    let _ = write_all(sink, line);
}

/// Tells that memory ran out, as far as the sink takes the line.
pub fn tell_no_memory<K: Sink>(sink: &mut K) -> Status
    ensures status { result ≡ Status.NoMemory }
    ensures told { TellsKnown no_memory_line (K.held sink.old) (K.held sink.new)
        (K.faults sink.old) (K.faults sink.new) }
{
    tell(sink, b"nessie: no memory\n");
    Status::NoMemory
}

/// Tells that a disk failed.
pub(crate) fn tell_disk_fault<K: Sink>(sink: &mut K) -> Status
    ensures told { FaultKnown (K.held sink.old) result (K.held sink.new) (K.faults sink.old)
        (K.faults sink.new) }
    ensures write { result ≡ Status.WriteFault → Rose (K.faults sink.old) (K.faults sink.new) }
    ensures stays { IsTrue (tells_all result) → K.faults sink.new ≡ K.faults sink.old }
    ensures ends { (result ≡ Status.DiskFault) ⊎ (result ≡ Status.WriteFault) }
    ensures taken { result ≢ Status.Usage }
    ensures unread { result ≢ Status.ReadFault }
    ensures unheard { result ≢ Status.ListenerFault }
{
    match write_all(sink, b"nessie: disk fault\n") {
        Ok(()) => Status::DiskFault,
        Err(_) => Status::WriteFault,
    }
}

/// Tells that the listener failed. The status is the disk's where that failed too.
pub(crate) fn tell_listener_fault<K: Sink>(failed: bool, sink: &mut K) -> Status
    ensures told { (wrote : Bool) × (result ≡ status_after Served.ListenerFault failed wrote)
        × IsWritten wrote listener_fault_line
        (record {
          held = K.held sink.old;
          after = K.held sink.new;
          before = K.faults sink.old;
          now = K.faults sink.new;
        }) }
    ensures write { result ≡ Status.WriteFault → Rose (K.faults sink.old) (K.faults sink.new) }
    ensures stays { IsTrue (tells_all result) → K.faults sink.new ≡ K.faults sink.old }
    ensures taken { result ≢ Status.Usage }
    ensures unread { result ≢ Status.ReadFault }
{
    match write_all(sink, b"nessie: listener fault\n") {
        Ok(()) if failed => Status::DiskFault,
        Ok(()) => Status::ListenerFault,
        Err(_) => Status::WriteFault,
    }
}
