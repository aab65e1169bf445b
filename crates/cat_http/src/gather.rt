ghost use Rattle.std.specs.Prelude.{◌≤◌};

use crate::put::{WriteFault, put_after, write_all};
use cat_io::Sink;

// How many bytes wait at most.
const ROOM: usize = 4096;

/// Bytes on the stack that are written together: those of a small message in one write, and those
/// before a large piece in one before it. Once a write failed, nothing more is written.
#[derive(Drop)]
pub(crate) struct Gathered {
    bytes: [u8; ROOM],
    len: usize,
    outcome: Result<(), WriteFault>,
    ghost within: { len ≤ 4096 },
}

impl Gathered {
    ghost use Rattle.std.specs.Prelude.{ℕ, List, Option, [], ◌++◌, ◌≡◌, ◌+◌, length};
    ghost use Rattle.std.specs.Option.{option_map};
    ghost use Rattle.cat_http.specs.Gathering.{Gathers, waiting_in};
    ghost use Rattle.cat_http.specs.Reply.{number_line, text_line};
    ghost use Rattle.cat_http.specs.Writing.{Wrote};

    /// Nothing yet.
    pub(crate) fn new() -> Gathered
        ensures { (start : Option (List ℕ)) (from : ℕ) → Gathers start start from from result [] }
    {
        Gathered {
            bytes: [0; ROOM],
            len: 0,
            outcome: Ok(()),
        }
    }

    /// The bytes, behind those before them.
    pub(crate) fn put<K: Sink>(&mut self, sink: &mut K, piece: &[u8])
        ensures { (start : Option (List ℕ)) (from : ℕ) (all : List ℕ)
            → Gathers start (K.held sink.old) from (K.faults sink.old) self.old all
            → Gathers start (K.held sink.new) from (K.faults sink.new) self.new (all ++ piece.now) }
    {
        if self.outcome.is_err() {
            return;
        }
        if piece.len() <= ROOM - self.len {
            self.keep(piece);
            return;
        }
        let waiting = write_all(sink, &self.bytes[..self.len]);
        self.len = 0;
        self.outcome = put_after(waiting, sink, piece);
    }

    fn keep(&mut self, piece: &[u8])
        requires { self.old.len + length piece.now ≤ 4096 }
        ensures waiting { waiting_in self.new ≡ waiting_in self.old ++ piece.now }
        ensures outcome { self.new.outcome ≡ self.old.outcome }
    {
        let end = self.len + piece.len();
        self.bytes[self.len..end].copy_from_slice(piece);
        self.len = end;
    }

    /// A header line with the text, if there is one.
    pub(crate) fn put_text_line<K: Sink>(&mut self, sink: &mut K, name: &[u8], text: Option<&str>)
        ensures { (start : Option (List ℕ)) (from : ℕ) (all : List ℕ)
            → Gathers start (K.held sink.old) from (K.faults sink.old) self.old all
            → Gathers start (K.held sink.new) from (K.faults sink.new) self.new
            (all ++ text_line name.now (option_map (λ t. t.now) text.entry)) }
    {
        if let Some(text) = text {
            self.put(sink, name);
            self.put(sink, text.as_bytes());
            self.put(sink, b"\r\n");
        }
    }

    /// A header line with the number, if there is one.
    pub(crate) fn put_number_line<K: Sink>(
        &mut self,
        sink: &mut K,
        name: &[u8],
        number: Option<u64>,
    )
        ensures { (start : Option (List ℕ)) (from : ℕ) (all : List ℕ)
            → Gathers start (K.held sink.old) from (K.faults sink.old) self.old all
            → Gathers start (K.held sink.new) from (K.faults sink.new) self.new
            (all ++ number_line name.now number) }
    {
        if let Some(number) = number {
            let mut digits = itoa::Buffer::new();
            self.put(sink, name);
            self.put(sink, digits.format(number).as_bytes());
            self.put(sink, b"\r\n");
        }
    }

    /// Writes what waits.
    pub(crate) fn finish<K: Sink>(&self, sink: &mut K) -> Result<(), WriteFault>
        ensures { (start : Option (List ℕ)) (from : ℕ) (all : List ℕ)
            → Gathers start (K.held sink.old) from (K.faults sink.old) self.now all
            → Wrote start (K.held sink.new) from (K.faults sink.new) result all }
    {
        put_after(self.outcome, sink, &self.bytes[..self.len])
    }
}
