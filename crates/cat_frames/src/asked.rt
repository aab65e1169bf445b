//! Operations of a request as they are read.

ghost use Rattle.std.specs.Prelude.{◌≡◌, [], OnOk};
ghost use Rattle.cat_frames.specs.Walks.{all_asked, and_one};

use cat_codes::seq::Seq;
use cat_model::content::Content;
use cat_model::op::Op;
use std::alloc::{AllocError, Global};

/// Operations, and the contents of the PUTs among them.
#[derive(Drop)]
pub(crate) struct Asked {
    pub(crate) ops: Seq<Op>,
    pub(crate) contents: Seq<Content>,
}

impl Asked {
    pub(crate) fn new(alloc: Global) -> Asked
        ensures { result ≡ all_asked [] }
    {
        Asked {
            ops: Seq::new(alloc),
            contents: Seq::new(alloc),
        }
    }

    /// Adds an operation, and its content, if it has one.
    pub(crate) fn add(&mut self, op: Op, content: Option<Content>) -> Result<(), AllocError>
        ensures { OnOk result (self.new ≡ and_one self.old (op, content)) }
    {
        self.ops.push(op)?;
        if let Some(content) = content {
            self.contents.push(content)?;
        }
        Ok(())
    }
}
