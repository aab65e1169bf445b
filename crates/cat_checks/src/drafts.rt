//! The drafts of entries.

ghost use Rattle.std.specs.Prelude.{◌≡◌};
ghost use Rattle.cat_model.specs.Step as step;
ghost use Rattle.cat_checks.specs.Legal as legal;

use cat_model::command::Command;
use cat_model::log_entry::{Action, LogEntry};

/// Whether a call opens a draft.
fn opens_draft(command: &Command) -> bool
    ensures { result ≡ step.opens_draft command.now }
{
    match command {
        Command::Create(_) | Command::Assign(_) | Command::Delete(_) => false,
        Command::Commit(_) | Command::Merge(_) | Command::Transplant(_) => true,
    }
}

/// Whether an action opens a draft, as no sweep does.
fn opens_one(action: &Action) -> bool
    ensures { result ≡ legal.opens_one action.now }
{
    match action {
        Action::Call(command) => opens_draft(command),
        Action::Sweep(_) => false,
    }
}

/// Whether an entry's draft is 0 exactly where its action opens none.
pub fn has_its_draft(entry: &LogEntry) -> bool
    ensures { result ≡ legal.has_its_draft entry.now }
{
    if opens_one(&entry.action) {
        entry.draft != 0
    } else {
        entry.draft == 0
    }
}
