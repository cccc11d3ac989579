//! A read, a free or a claim in an attempt: it closes once its own work came to something.

ghost use Rattle.std.specs.Prelude.{◌≡◌, IfOk, OnErr, Some, true};
ghost use Rattle.std.specs.List.{list_all};
ghost use Rattle.zio_children.specs.RequestKids.{is_ended};
ghost use Rattle.zio_stages.specs.Closings.{EndsBy};
ghost use Rattle.zio_stages.specs.RequestReads.{HasFound, found_of};
ghost use Rattle.zio_stages.specs.declared.request_node.OwnFound.{OwnFound};

use crate::closing::{Outcome, close};
use crate::request_node::{Own, RequestNode};
use std::alloc::Global;
use zio_types::NoMemory;

impl RequestNode {
    /// The decision of a read, a free or a claim, whose own work came to something. Where memory is refused the node is
    /// as before.
    pub fn close_found(&mut self, alloc: Global) -> Result<Outcome, NoMemory>
        requires found { HasFound self.old.own }
        requires ended { list_all is_ended self.old.kids.kids.kids ≡ true }
        ensures ends { IfOk result (λ outcome. (own : OwnFound) × (found_of self.old.own ≡ Some own)
            × EndsBy self.old own outcome) }
        ensures same { OnErr result (self.new ≡ self.old) }
    {
        let Own::Found(found) = &mut self.own else {
            unreachable!()
        };
        close(
            alloc,
            self.attempt,
            self.failmode,
            &mut self.waiting,
            &mut self.kids,
            found,
        )
    }
}
