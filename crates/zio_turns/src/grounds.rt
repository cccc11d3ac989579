//! What the nodes of a round stand on: the disks, the space and the leaves' queues.

ghost use Rattle.std.specs.Prelude.{◌≡◌, ◌<◌, ◌≤◌, ◌^◌, [], length, map, replicate, slice_index_or, true, Err, IfErr, IfOk, OnErr, OnOk};
ghost use Rattle.std.specs.List.{AllByRecursion, list_all};
ghost use Rattle.zio_types.specs.Places.{is_lawful_top};
ghost use Rattle.zio_faults.specs.Hits.{RowFits};
ghost use Rattle.zio_gang.specs.Trees.{sizes_of};
ghost use Rattle.zio_vqueue.specs.Queues.{FitsDevice, end_of};
ghost use Rattle.zio_disks.specs.Disks.{Handles};
ghost use Rattle.zio_groups.specs.Issued.{written_spots};
ghost use Rattle.zio_turns.specs.AtLeaves.{AreInOrder, AreIssued, IsPut, eligible_at, eligible_leaves, keys_at, no_waits, put_as, waiting_at};
ghost use Rattle.zio_staged.specs.Entries.{times_in};
ghost use Rattle.zio_turns.specs.Grounds.{AreReady};

use crate::desk::Desk;
use crate::leaf_queues::Queues;
use std::alloc::Global;
use zio_disks::{Setting, Stop};
use zio_groups::Answered;
use zio_outside::Disk;
use zio_shared::Shared;
use zio_types::{Entry, List, NoMemory, Top};
use zio_vqueue::Op;

/// What an engine lends to the nodes of a round, and does what they ask with.
#[derive(Drop)]
pub struct Grounds<D> {
    pub alloc: Global,
    /// The tops, the fault table and the resume point.
    pub setting: Setting,
    /// By the numbers of the leaves.
    pub disks: Vec<D>,
    pub desk: Desk,
    pub queues: Queues,
}

/// Want of memory: the disks come back.
#[derive(Drop)]
pub struct DisksBack<D> {
    pub disks: Vec<D>,
}

impl<D: Disk + Drop> Grounds<D> {
    /// All of the tops is free, and nothing waits. The tops are those of the setting; where memory is refused they are
    /// dropped, and the setting too.
    pub fn new(
        alloc: Global,
        setting: Setting,
        disks: Vec<D>,
        tops: List<Top>,
    ) -> Result<Grounds<D>, DisksBack<D>>
        requires few { length tops < 2 ^ 32 }
        requires lawful { list_all is_lawful_top (sizes_of tops) ≡ true }
        requires rows { AllByRecursion RowFits setting.rows }
        requires count { length disks.items < 2 ^ 32 }
        ensures setting { IfOk result (λ grounds. grounds.setting ≡ setting) }
        ensures disks { IfOk result (λ grounds. grounds.disks.items ≡ disks.items) }
        ensures tops { IfOk result (λ grounds. grounds.desk.tops ≡ tops) }
        ensures space { IfOk result (λ grounds. grounds.desk.space ≡
            record { sizes = sizes_of tops; live = []; pending = []; entries = []; spare = 0 }) }
        ensures leaves { IfOk result (λ grounds. grounds.queues.leaves.items
            ≡ replicate (length disks.items) no_waits) }
        ensures ready { IfOk result (λ grounds.
            AreReady grounds.setting.rows (map D.bytes grounds.disks.items) grounds.queues.leaves.items) }
        ensures back { IfErr result (λ back. back.disks.items ≡ disks.items) }
    {
        let count = disks.len() as u32;
        let Ok(desk) = Desk::new(alloc, tops) else {
            return Err(DisksBack { disks });
        };
        let Ok(queues) = Queues::new(alloc, count) else {
            return Err(DisksBack { disks });
        };
        Ok(Grounds {
            alloc,
            setting,
            disks,
            desk,
            queues,
        })
    }

    /// The operation waits at the leaf under this key, under which none waits. Where memory is refused nothing has
    /// changed, and the bytes are dropped.
    pub fn put(&mut self, leaf: u32, key: usize, op: Op, bytes: Shared) -> Result<(), Stop>
        requires there { leaf < length self.old.queues.leaves.items }
        requires fits { FitsDevice op }
        requires lies { end_of op ≤ slice_index_or (map D.bytes self.old.disks.items) leaf 0 }
        requires apart { times_in key (keys_at self.old.queues.leaves.items) ≡ 0 }
        ensures ok { OnOk result
            (IsPut leaf (put_as key op bytes) self.old.queues.leaves.items self.new.queues.leaves.items) }
        ensures ready { AreReady self.old.setting.rows
            (map D.bytes self.old.disks.items) self.old.queues.leaves.items →
            AreReady self.new.setting.rows (map D.bytes self.new.disks.items) self.new.queues.leaves.items }
        ensures err { OnErr result ((result ≡ Err Stop.Memory) ×
            (self.new.queues.leaves.items ≡ self.old.queues.leaves.items)) }
        ensures setting { self.new.setting ≡ self.old.setting }
        ensures disks { self.new.disks.items ≡ self.old.disks.items }
        ensures desk { self.new.desk ≡ self.old.desk }
    {
        match self.queues.put(leaf, key, op, bytes) {
            Ok(()) => Ok(()),
            Err(NoMemory) => Err(Stop::Memory),
        }
    }

    /// How many leaves have a group to issue. Where there is none nothing waits.
    pub fn eligible(&self) -> u32
        ensures count { result ≡ length (eligible_leaves self.now.queues.leaves.items) }
        ensures none { AreInOrder self.now.queues.leaves.items → result ≡ 0
            → keys_at self.now.queues.leaves.items ≡ [] }
    {
        self.queues.eligible()
    }

    /// Issues the next group of the k-th leaf that has one. After a stop the group is lost.
    pub fn issue(&mut self, k: u32) -> Result<List<Answered>, Stop>
        requires ready { AreReady self.old.setting.rows
            (map D.bytes self.old.disks.items) self.old.queues.leaves.items }
        requires eligible { k < length (eligible_leaves self.old.queues.leaves.items) }
        ensures issued { IfOk result (AreIssued D.image self.old.setting
            (eligible_at self.old.queues.leaves.items k) self.old.queues.leaves.items self.new.queues.leaves.items
            self.old.disks.items self.new.disks.items) }
        ensures handled { Handles D.bytes D.faults D.faults_at_fetch D.home D.image D.sound D.went
            (written_spots (eligible_at self.old.queues.leaves.items k)
            (waiting_at self.old.queues.leaves.items (eligible_at self.old.queues.leaves.items k)))
            result self.old.disks.items self.new.disks.items }
        ensures ready_still { OnOk result (AreReady self.new.setting.rows
            (map D.bytes self.new.disks.items) self.new.queues.leaves.items) }
        ensures setting { self.new.setting ≡ self.old.setting }
        ensures desk { self.new.desk ≡ self.old.desk }
    {
        self.queues
            .issue(self.alloc, k, &self.setting, self.disks.as_mut_slice())
    }

    /// What was given back is free. It gives the entries of the round. Needs no memory.
    pub fn end_round(&mut self) -> List<Entry>
        ensures entries { result ≡ self.old.desk.space.entries }
        ensures space { self.new.desk.space ≡
            record self.old.desk.space { pending = []; entries = []; spare = 0 } }
        ensures tops { self.new.desk.tops ≡ self.old.desk.tops }
        ensures setting { self.new.setting ≡ self.old.setting }
        ensures disks { self.new.disks.items ≡ self.old.disks.items }
        ensures queues { self.new.queues.leaves.items ≡ self.old.queues.leaves.items }
    {
        self.desk.end_round()
    }
}
