//! A value that stands for a log.
ghost use Rattle.std.specs.Prelude.{◌≡◌, List};
ghost use Rattle.cat_model.specs.declared.log_entry.LogEntry.{LogEntry};
ghost use Rattle.cat_model.specs.Drafts.{Open};
ghost use Rattle.cat_model.specs.Mark.{Mark};
ghost use Rattle.cat_model.specs.Turns.{Opened, place_after};

/// A value that stands for a list of log entries, the oldest first, which go on from a state.
/// Contracts see the log, what it starts from, which logs are legal, the mark that is kept beside
/// the log, and what is open.
pub trait Logged {
    ghost log: { Self → List LogEntry };

    ghost opened: { Self → Opened };

    ghost legal: { Opened → List LogEntry → Type 0 };

    ghost mark: { Self → Mark };

    ghost left_open: { Self → Open };

    /// The place after the log: that of the state that it starts from, and one more for each entry.
    fn count(&self) -> u32
        ensures { result ≡ place_after (opened self.now) (log self.now) };

    /// The place of the state that the log starts from.
    fn first(&self) -> u32
        ensures { result ≡ (opened self.now).state.place };
}
