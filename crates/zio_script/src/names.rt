//! The names of a batch, by their keys, which compare in one step.
ghost use Rattle.std.specs.Prelude.{◌≡◌, None, IfOk, OnOk, [], not, true, false};
ghost use Rattle.zio_script.specs.Keys.{AddsKey, AddsName, AreBegun, AreForgotten, IsBegun, clash, has_key};

use std::alloc::{AllocFailed, Global};
use std::collections::BTreeSet;

/// Names by their keys. Most batches are of one request, and those put nothing into the set.
#[derive(Drop)]
pub(crate) struct NameSet {
    first: Option<u128>,
    /// The keys behind the first.
    others: BTreeSet<u128>,
}

impl NameSet {
    /// No name, without memory.
    fn new(alloc: Global) -> NameSet
        ensures first { result.first ≡ None }
        ensures others { result.others.keys ≡ [] }
    {
        NameSet {
            first: None,
            others: BTreeSet::new(alloc),
        }
    }

    fn contains(&self, key: u128) -> bool
        ensures { result ≡ has_key self.now key }
    {
        self.first == Some(key) || self.others.contains(&key)
    }

    // Adds the key, and says whether it is new.
    fn insert(&mut self, key: u128) -> Result<bool, AllocFailed<u128>>
        requires { IsBegun self.old }
        ensures begun { OnOk result (IsBegun self.new) }
        ensures added { IfOk result (λ added. added ≡ not (has_key self.old key)) }
        ensures keys { OnOk result (AddsKey self.old key self.new) }
    {
        let Some(first) = self.first else {
            self.first = Some(key);
            return Ok(true);
        };
        if key == first {
            return Ok(false);
        }
        self.others.insert(key)
    }

    fn clear(&mut self)
        ensures first { self.new.first ≡ None }
        ensures others { self.new.others.keys ≡ [] }
    {
        self.first = None;
        self.others.clear();
    }
}

/// Which blocks a batch reads, and which it writes.
#[derive(Drop)]
pub(crate) struct BatchNames {
    read: NameSet,
    written: NameSet,
}

impl BatchNames {
    /// Of a batch with no request, without memory.
    pub(crate) fn new(alloc: Global) -> BatchNames
        ensures { AreForgotten result }
    {
        BatchNames {
            read: NameSet::new(alloc),
            written: NameSet::new(alloc),
        }
    }

    /// Adds the name of a read or of a write, and says whether the batch may have it.
    pub(crate) fn insert(&mut self, key: u128, is_read: bool) -> Result<bool, AllocFailed<u128>>
        requires { AreBegun self.old }
        ensures begun { OnOk result (AreBegun self.new) }
        ensures added { IfOk result (λ added. added ≡ not (clash self.old is_read key)) }
        ensures keys { IfOk result (λ added. added ≡ true → AddsName self.old key is_read self.new) }
    {
        if is_read {
            self.insert_read(key)
        } else {
            self.insert_written(key)
        }
    }

    fn insert_read(&mut self, key: u128) -> Result<bool, AllocFailed<u128>>
        requires { AreBegun self.old }
        ensures begun { OnOk result (AreBegun self.new) }
        ensures added { IfOk result (λ added. added ≡ not (clash self.old true key)) }
        ensures keys { IfOk result (λ added. added ≡ true → AddsName self.old key true self.new) }
    {
        if self.written.contains(key) {
            return Ok(false);
        }
        self.read.insert(key)?;
        Ok(true)
    }

    fn insert_written(&mut self, key: u128) -> Result<bool, AllocFailed<u128>>
        requires { AreBegun self.old }
        ensures begun { OnOk result (AreBegun self.new) }
        ensures added { IfOk result (λ added. added ≡ not (clash self.old false key)) }
        ensures keys { IfOk result (λ added. added ≡ true → AddsName self.old key false self.new) }
    {
        if self.read.contains(key) {
            return Ok(false);
        }
        self.written.insert(key)
    }

    /// Forgets the names.
    pub(crate) fn clear(&mut self)
        ensures { AreForgotten self.new }
    {
        self.read.clear();
        self.written.clear();
    }
}
