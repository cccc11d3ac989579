//! Admission: which trees of a batch are answered before its round.

ghost use Rattle.std.specs.Prelude.{◌≡◌, ℕ, Bool, List, IfOk, OnOk};
ghost use Rattle.zio_script.specs.Accepted.{AreRising};
ghost use Rattle.zio_script.specs.Requests.{requests_of};
ghost use Rattle.zio_script.specs.declared.script.Request.{Request};
ghost use Rattle.zio_gang.specs.Rounds.{trees_of, with_request};
ghost use Rattle.zio_course.specs.Admissions.{IsAdmission, IsComing, IsComingLine, error_by, error_in, joined_at, joined_rules, rules_of, with_line};
ghost use Rattle.zio_course.specs.Names.{is_name_in, is_some_name};

use crate::awaited::Awaited;
use crate::bound::Bound;
use crate::lines::first_line;
use indexmap::IndexMap;
use std::alloc::Global;
use zio_script::{Item, Request, Work};
use zio_types::{Errno, NoMemory, ReqNo};

/// What admission finds in a request, or in some of a tree's.
#[derive(Clone, Copy, Debug, PartialEq, Eq)]
pub struct Rules {
    /// Something is suspended, and a request changes the pool or names a block that a suspended one names.
    pub blocked: bool,
    /// A read or a free names a block that isn't bound.
    pub lacks: bool,
    /// A write or a claim names a block that is bound.
    pub takes: bool,
}

impl Rules {
    /// What is found in one or the other.
    fn join(self, other: Rules) -> Rules
        ensures { result ≡ joined_rules self other }
    {
        Rules {
            blocked: self.blocked || other.blocked,
            lacks: self.lacks || other.lacks,
            takes: self.takes || other.takes,
        }
    }

    /// The error that answers the whole tree, by the first rule that applies.
    fn error(self) -> Option<Errno>
        ensures { result ≡ error_by self }
    {
        if self.blocked {
            Some(Errno::Io)
        } else if self.lacks {
            Some(Errno::Noent)
        } else if self.takes {
            Some(Errno::Exist)
        } else {
            None
        }
    }
}

/// What admission finds in this request.
fn rules_of(work: &Work, waits: bool, awaited: &Awaited, bound: &Bound) -> Rules
    ensures { result ≡ rules_of waits (is_name_in awaited.now) (is_some_name bound.now) work.now }
{
    match work {
        Work::Null => Rules {
            blocked: false,
            lacks: false,
            takes: false,
        },
        Work::Read { name, .. } => Rules {
            blocked: waits && awaited.contains(name),
            lacks: !bound.is_bound(name),
            takes: false,
        },
        Work::Write { name, .. } | Work::Claim { name, .. } => Rules {
            blocked: waits,
            lacks: false,
            takes: bound.is_bound(name),
        },
        Work::Free { name } => Rules {
            blocked: waits,
            lacks: !bound.is_bound(name),
            takes: false,
        },
    }
}

/// Adds what is found in one more request of a tree.
fn join_at(rules: &mut Vec<Rules>, slot: usize, more: Rules)
    ensures { rules.new.items ≡ joined_at rules.old.items slot more }
{
    if slot < rules.len() {
        rules[slot] = rules[slot].join(more);
    }
}

/// What admission finds in each tree of a batch, and the tree of each request.
#[derive(Debug, Drop)]
pub struct Admission {
    /// The number of its tree, for the number of each request.
    slots: IndexMap<ReqNo, usize>,
    /// By the number of the tree.
    rules: Vec<Rules>,
}

impl Admission {
    /// Of the trees of a batch, beside what is suspended, if anything is, the names that it waits for and those that
    /// are bound.
    pub fn of(
        alloc: Global,
        batch: &[Item],
        waits: bool,
        awaited: &Awaited,
        bound: &Bound,
    ) -> Result<Admission, NoMemory>
        requires rising { AreRising (requests_of batch.now) }
        ensures { IfOk result (λ a. IsAdmission waits (is_name_in awaited.now) (is_some_name bound.now)
            (trees_of (requests_of batch.now)) a.slots.entries a.rules.items) }
    {
        let mut admission = Admission {
            slots: IndexMap::new(alloc),
            rules: Vec::new(alloc),
        };
        let mut rest = batch;
        while let Some((item, more)) = first_line(rest) {
            admission.add_line(item, waits, awaited, bound)?;
            rest = more;
        }
        Ok(admission)
    }

    /// Adds the request of a line, if it is one.
    fn add_line(
        &mut self,
        item: &Item,
        waits: bool,
        awaited: &Awaited,
        bound: &Bound,
    ) -> Result<(), NoMemory>
        ensures { OnOk result ((trees : List (List Request)) → IsComingLine item.now trees
            → IsAdmission waits (is_name_in awaited.now) (is_some_name bound.now) trees self.old.slots.entries
            self.old.rules.items
            → IsAdmission waits (is_name_in awaited.now) (is_some_name bound.now)
            (with_line item.now trees) self.new.slots.entries self.new.rules.items) }
    {
        match item {
            Item::Request(request) => {
                self.add(request, rules_of(&request.work, waits, awaited, bound))
            }
            Item::Go | Item::Clear => Ok(()),
        }
    }

    /// Adds a request to its parent's tree, or a tree for it.
    fn add(&mut self, request: &Request, rules: Rules) -> Result<(), NoMemory>
        ensures { OnOk result ((waits : Bool) (awaited bound : List ℕ → Bool) (trees : List (List Request))
            → rules ≡ rules_of waits awaited bound request.now.work → IsComing request.now trees
            → IsAdmission waits awaited bound trees self.old.slots.entries self.old.rules.items
            → IsAdmission waits awaited bound (with_request request.now.under request.now trees) self.new.slots.entries
            self.new.rules.items) }
    {
        let slot = match request.under {
            None => {
                self.rules.push(rules)?;
                self.rules.len() - 1
            }
            Some(parent) => {
                // A parent stands before its children, so it has a tree.
                let Some(slot) = self.slots.get(&parent) else {
                    return Ok(());
                };
                let slot = *slot;
                join_at(&mut self.rules, slot, rules);
                slot
            }
        };
        self.slots.insert(request.number, slot)?;
        Ok(())
    }

    /// The error that answers a request before the round, none where it runs.
    pub fn error_of(&self, number: ReqNo) -> Option<Errno>
        ensures { result ≡ error_in self.now.slots.entries self.now.rules.items number }
    {
        let slot = *self.slots.get(&number)?;
        self.rules.get(slot)?.error()
    }
}
