//! Entries of the log.

ghost use Rattle.std.specs.Prelude.{◌≡◌};
ghost use Rattle.cat_model.specs.declared.log_entry.Action.TheVariants as actions;

use cat_model::command::Command;
use cat_model::log_entry::{Action, LogEntry};
use cat_model::moment::Moment;
use cat_names::hash::Hash;

/// Who makes a call, the number of its draft, 0 where it opens none, the place at which it began,
/// and when.
#[derive(Clone, Copy)]
pub struct Turn {
    pub(crate) caller: u32,
    pub(crate) draft: u64,
    pub(crate) opened: u32,
    pub(crate) moment: Moment,
}

/// The entry of a call.
pub(crate) fn entry(place: u32, turn: Turn, command: Command, head: Option<Hash>) -> LogEntry
    ensures { result
        ≡ record {
          place = place;
          caller = turn.caller;
          draft = turn.draft;
          moment = turn.moment;
          action = actions.Call command;
          head = head;
        } }
{
    LogEntry {
        place,
        caller: turn.caller,
        draft: turn.draft,
        moment: turn.moment,
        action: Action::Call(command),
        head,
    }
}
