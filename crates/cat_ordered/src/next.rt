//! Taking what comes next of a list.

ghost use Rattle.std.specs.Prelude.{◌≡◌, ◌≤◌, IfOk, OnOk, length, take, drop};
ghost use Rattle.std.specs.Vec.Iter.{into_iter_items};

use std::alloc::{AllocError, Global};
use std::vec::IntoIter;

/// Takes the next `n` of what is still to come.
pub(crate) fn next_of<T: Drop>(
    alloc: Global,
    rest: &mut IntoIter<T>,
    n: usize,
) -> Result<Vec<T>, AllocError>
    requires { n ≤ length (into_iter_items rest.old) }
    ensures taken { IfOk result (λ v. v.items ≡ take n (into_iter_items rest.old)) }
    ensures left { OnOk result (into_iter_items rest.new ≡ drop n (into_iter_items rest.old)) }
{
    let mut out = Vec::with_capacity(alloc, n)?;
    while out.len() < n {
        let Some(item) = rest.next() else {
            unreachable!()
        };
        out.push(item)?;
    }
    Ok(out)
}
