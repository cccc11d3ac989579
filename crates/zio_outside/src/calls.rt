ghost use Rattle.std.specs.Prelude.{◌≡◌, ◌≤◌, ◌-◌, min, ◌↔◌, IsErr, IsTrue, OnErr, OnOk};
ghost use Rattle.std.specs.List.{Contains};
ghost use Rattle.zio_outside.specs.Outside.{count_max, counted};

use crate::Failed;
use zio_types::List;

/// The calls of an object in memory: which of them fail, and how many were made and failed.
///
/// A list of failing calls is short, so each call scans it.
#[derive(Debug, Drop)]
pub(crate) struct Calls {
    fails: List<u64>,
    made: u64,
    faults: u64,
    ghost in_range: { faults ≤ count_max },
}

impl Calls {
    pub(crate) fn new(fails: List<u64>) -> Calls
        ensures fails { result.fails ≡ fails }
        ensures made { result.made ≡ 0 }
        ensures faults { result.faults ≡ 0 }
    {
        Calls {
            fails,
            made: 0,
            faults: 0,
        }
    }

    /// Counts a call, and its fault if it is listed.
    pub(crate) fn begin(&mut self) -> Result<(), Failed>
        ensures listed { IsErr result ↔ Contains self.old.fails self.old.made }
        ensures fails { self.new.fails ≡ self.old.fails }
        ensures made { self.new.made ≡ counted self.old.made }
        ensures ok { OnOk result (self.new.faults ≡ self.old.faults) }
        ensures failed { OnErr result (self.new.faults ≡ counted self.old.faults) }
    {
        let fails = self.is_next_listed();
        self.made = self.made.saturating_add(1);
        if fails {
            return self.fault();
        }
        Ok(())
    }

    fn is_next_listed(&self) -> bool
        ensures { IsTrue result ↔ Contains self.now.fails self.now.made }
    {
        self.fails.as_slice().contains(&self.made)
    }

    /// Counts a fault, and is that fault.
    pub(crate) fn fault(&mut self) -> Result<(), Failed>
        ensures failed { IsErr result }
        ensures fails { self.new.fails ≡ self.old.fails }
        ensures made { self.new.made ≡ self.old.made }
        ensures faults { self.new.faults ≡ counted self.old.faults }
    {
        self.faults = self.faults.saturating_add(1);
        Err(Failed)
    }

    pub(crate) fn faults(&self) -> u64
        ensures { result ≡ self.now.faults }
    {
        self.faults
    }

    /// Takes a count of faults at its last value back by one, so that one more shows.
    pub(crate) fn keep_room(&mut self)
        ensures faults { self.new.faults ≡ min self.old.faults (count_max - 1) }
        ensures fails { self.new.fails ≡ self.old.fails }
        ensures made { self.new.made ≡ self.old.made }
    {
        self.faults = self.faults.min(u64::MAX - 1);
    }
}
