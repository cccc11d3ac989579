//! The own work of requests over disks and a chooser of places.

use crate::ground::kinds::own_work_of;
use crate::waiting::{Kept, Waiting};
use crate::works::{OwnDone, OwnWork};
use std::alloc::Global;
use zio_blocks::Chooser;
use zio_course::Stop;
use zio_disks::Setting;
use zio_outside::Disk;
use zio_types::{List, Place};

mod kinds;
mod parts;

/// What own work stands on in a round.
#[derive(Drop)]
pub(crate) struct Ground<D, C> {
    pub(crate) alloc: Global,
    /// The tops, the fault table and the resume point.
    pub(crate) setting: Setting,
    /// Its number.
    pub(crate) round: u32,
    /// By the numbers of the leaves.
    pub(crate) disks: Vec<D>,
    pub(crate) chooser: C,
}

impl<D: Disk + Drop, C: Chooser + Drop> OwnWork for Ground<D, C> {
    ghost use Rattle.std.specs.Prelude.{◌≡◌};
    ghost use Rattle.zio_types.specs.Places.{SamePlaces};
    ghost use Rattle.zio_disks.specs.Disks.{Tell};
    ghost use Rattle.zio_course.specs.declared.runner.Stop.TheVariants.{Device};
    ghost use Rattle.zio_plain.specs.Grounds.{Breaks, CanRun, Moves, seen};
    ghost use Rattle.zio_plain.specs.GroundLaws.{breaks_itself, memory_no_device, moves_breaks, moves_can, moves_itself, moves_then, stays_running};

    ghost tells = { λ g images. Tell D.image g.disks.items images };

    ghost runs = { λ g t. (t.setting ≡ g.setting) × (t.round ≡ g.round) };

    ghost fresh = { λ g t. SamePlaces (C.used g.chooser) t.used };

    ghost given = { λ g. C.given g.chooser };

    ghost can = { λ g block. CanRun D.bytes (seen C.sizes C.used C.live C.given g) block };

    ghost moves = { λ named a b stay. Moves D.bytes D.faults D.faults_at_fetch D.home D.image D.sound C.lawful named
        (seen C.sizes C.used C.live C.given a) (seen C.sizes C.used C.live C.given b) stay };

    ghost breaks = { λ named a b stop. Breaks D.bytes D.faults D.faults_at_fetch D.home D.image D.sound named
        (seen C.sizes C.used C.live C.given a) (seen C.sizes C.used C.live C.given b) (stop ≡ Device) };

    fn own_work(
        &mut self,
        attempt: u32,
        waiting: &Waiting,
        children: &[Kept],
    ) -> Result<OwnDone, Stop> {
        own_work_of(self, attempt, waiting, children)
    }

    fn give_back(&mut self, taken: List<Place>) {
        if !taken.is_empty() {
            self.chooser.give_back(taken.as_slice());
        }
    }

    ghost moves_itself = { λ named a. moves_itself (seen C.sizes C.used C.live C.given a) };

    ghost moves_then = { λ named a b c ps qs h k. moves_then C.lawful_then h k };

    ghost moves_runs = { λ named a b ps t h runs. stays_running t h runs };

    ghost moves_can = { λ named a b ps block h can. moves_can block h can };

    ghost memory_breaks = { λ named a. breaks_itself (seen C.sizes C.used C.live C.given a) memory_no_device };

    ghost moves_breaks = { λ named a b c ps stop h k. moves_breaks h k };
}
