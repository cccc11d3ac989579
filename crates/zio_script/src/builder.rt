//! What the lines so far make, and whether a line may follow them.
ghost use Rattle.std.specs.Prelude.{◌≡◌, ◌<◌, [], ℕ, List, false, true, ◌||◌, ◌&&◌, IfErr, IfOk, OnOk, map, slice_index_or};
ghost use Rattle.zio_script.specs.Builders.{AddsLine, AddsWords, AreLimited, IsEnd, IsEndWhy, IsKept, IsLineWhy, IsNamed, IsWordsWhy, Sees, asked_of, batch_of, script_of};
ghost use Rattle.zio_script.specs.Lines.{ClearLine, FailmodeLine, FaultLine, GoLine, RequestLine};
ghost use Rattle.zio_script.specs.NewLines.{line_as, request_as, row_as, top_as, work_as};
ghost use Rattle.zio_script.specs.OpenBatches.{IsStand, IsStandWithin, is_full_at, must_at};
ghost use Rattle.zio_script.specs.Requests.{kind_of};
ghost use Rattle.zio_script.specs.Whys.{is_among, is_leaf, may_fail, parent_in, repeats_leaf, says_canfail, shares_with_claim};
ghost use Rattle.std.specs.List.{list_all};
ghost use Rattle.zio_script.specs.declared.script.Failmode.{Failmode};

use crate::limits::{BATCH_LEN_MAX, CLEARS_MAX, FAULTS_MAX, TOPS_MAX};
use crate::lines::{NewRequest, NewRow, NewTop, ScriptLine, line_in};
use crate::open_batch::{OpenBatch, Stand};
use crate::ranges::{are_leaves, fits_asked, fits_row, is_sector, work_len};
use crate::refusal::{Refusal, refusal_of};
use crate::values::{
    add_leaves, is_claim, is_write, kind_of, may_fail_alone, request_of, row_of, says_canfail,
};
use crate::word::is_skipped;
use crate::{Failmode, Item, Request, Script, ScriptError, TopLine, Why};
use std::alloc::Global;
use zio_faults::{FaultKind, Row};
use zio_types::{Kind, List, SECTOR_SIZE};

/// The script of the lines so far, and what the next line is held against.
#[derive(Drop)]
pub(crate) struct Builder {
    /// A line stands before that isn't skipped.
    begun: bool,
    failmode: Failmode,
    tops: List<TopLine>,
    /// The leaves of the tops.
    seen: [bool; 16],
    faults: List<Row>,
    /// A row tells reads apart.
    apart: bool,
    items: List<Item>,
    /// The highest number of a request, 0 before the first.
    last: u32,
    /// How many items are `clear`.
    clears: u32,
    batch: OpenBatch,
}

impl Builder {
    /// Before the first line, without memory.
    pub(crate) fn new(alloc: Global) -> Builder
        ensures kept { IsKept result }
        ensures begun { result.begun ≡ false }
        ensures script { script_of result ≡ record { failmode = Failmode.Wait; tops = []; faults = []; items = [] } }
    {
        Builder {
            begun: false,
            failmode: Failmode::Wait,
            tops: List::new(alloc),
            seen: [false; 16],
            faults: List::new(alloc),
            apart: false,
            items: List::new(alloc),
            last: 0,
            clears: 0,
            batch: OpenBatch::new(alloc),
        }
    }

    /// Adds the line of these words.
    pub(crate) fn add_words(&mut self, alloc: Global, words: &[&[u8]]) -> Result<(), Refusal>
        requires { IsKept self.old }
        ensures kept { OnOk result (IsKept self.new) }
        ensures added { OnOk result (AddsWords self.old (map (λ w. w.now) words.now) self.new) }
        ensures why { IfErr result (IsWordsWhy self.old (map (λ w. w.now) words.now)) }
    {
        if is_skipped(words) {
            return Ok(());
        }
        match line_in(alloc, words) {
            Ok(line) => self.add_line(alloc, line),
            Err(fault) => Err(refusal_of(fault)),
        }
    }

    fn add_line(&mut self, alloc: Global, line: ScriptLine<'_>) -> Result<(), Refusal>
        requires { IsKept self.old }
        ensures kept { OnOk result (IsKept self.new) }
        ensures added { OnOk result (AddsLine self.old (line_as line.entry) self.new) }
        ensures why { IfErr result (IsLineWhy self.old (line_as line.entry)) }
    {
        match line {
            ScriptLine::Failmode(mode) => self.add_failmode(mode),
            ScriptLine::Top(top) => self.add_top(alloc, top),
            ScriptLine::Fault(row) => self.add_fault(row),
            ScriptLine::Request(asked) => self.add_request(asked),
            ScriptLine::Go => self.add_go(),
            ScriptLine::Clear => self.add_clear(),
        }
    }

    /// The script, or what is wrong at the end of the text, behind the line before this number.
    pub(crate) fn finish(self, line: u32) -> Result<Script, ScriptError>
        requires { IsKept self }
        ensures script { IfOk result (IsEnd self line) }
        ensures fault { IfErr result (IsEndWhy self line) }
    {
        if !self.batch.marks.is_empty() {
            return Err(Refusal::Faulty(Why::Order).at(line));
        }
        if self.tops.is_empty() {
            return Err(Refusal::Faulty(Why::Pool).at(line));
        }
        Ok(Script {
            failmode: self.failmode,
            tops: self.tops,
            faults: self.faults,
            items: self.items,
        })
    }

    fn add_failmode(&mut self, mode: Failmode) -> Result<(), Refusal>
        requires { IsKept self.old }
        ensures kept { OnOk result (IsKept self.new) }
        ensures added { OnOk result (AddsLine self.old (FailmodeLine mode) self.new) }
        ensures why { IfErr result (IsLineWhy self.old (FailmodeLine mode)) }
    {
        if self.begun {
            return Err(Refusal::Faulty(Why::Order));
        }
        self.failmode = mode;
        self.begun = true;
        Ok(())
    }

    fn add_top(&mut self, alloc: Global, top: NewTop) -> Result<(), Refusal>
        requires { IsKept self.old }
        ensures kept { OnOk result (IsKept self.new) }
        ensures added { OnOk result (AddsLine self.old (top_as top) self.new) }
        ensures why { IfErr result (IsLineWhy self.old (top_as top)) }
    {
        let words = top.leaves.as_slice();
        if !are_leaves(words) || !is_sector(top.sector) || self.tops.len() >= TOPS_MAX as usize {
            return Err(Refusal::Faulty(Why::Limit));
        }
        if !self.faults.is_empty() || !self.items.is_empty() {
            return Err(Refusal::Faulty(Why::Order));
        }
        if repeats_leaf(&mut self.seen, words) {
            return Err(Refusal::Faulty(Why::Pool));
        }
        let mut leaves = List::new(alloc);
        add_leaves(&mut leaves, words)?;
        let unit = (top.sector / u64::from(SECTOR_SIZE)) as u32;
        self.tops.push(TopLine { leaves, unit })?;
        self.begun = true;
        Ok(())
    }

    fn add_fault(&mut self, row: NewRow) -> Result<(), Refusal>
        requires { IsKept self.old }
        ensures kept { OnOk result (IsKept self.new) }
        ensures added { OnOk result (AddsLine self.old (FaultLine (row_as row)) self.new) }
        ensures why { IfErr result (IsLineWhy self.old (FaultLine (row_as row))) }
    {
        if !fits_row(&row) || self.faults.len() >= FAULTS_MAX as usize {
            return Err(Refusal::Faulty(Why::Limit));
        }
        if self.tops.is_empty() || !self.items.is_empty() {
            return Err(Refusal::Faulty(Why::Order));
        }
        if !self.seen[row.leaf as usize] {
            return Err(Refusal::Faulty(Why::Pool));
        }
        self.faults.push(row_of(&row))?;
        self.apart = self.apart || row.first || row.kind == FaultKind::Flip;
        self.begun = true;
        Ok(())
    }

    fn add_request(&mut self, asked: NewRequest<'_>) -> Result<(), Refusal>
        requires { IsKept self.old }
        ensures kept { OnOk result (IsKept self.new) }
        ensures added { OnOk result (AddsLine self.old (RequestLine (request_as asked.entry)) self.new) }
        ensures why { IfErr result (IsLineWhy self.old (RequestLine (request_as asked.entry))) }
    {
        let stand = self.batch.stand(asked.under);
        let Some(size) = self.size_with(&asked, stand) else {
            return Err(Refusal::Faulty(Why::Limit));
        };
        if self.tops.is_empty() || asked.number <= u64::from(self.last) {
            return Err(Refusal::Faulty(Why::Order));
        }
        let flag = asked.flag;
        let canfail = self.may_fail(&asked, stand);
        match request_of(asked, canfail) {
            Some(request) => self.add_named(request, flag, stand, size),
            None => Err(Refusal::Faulty(Why::Name)),
        }
    }

    // The bytes of all writes with the request, none where it breaks a limit.
    fn size_with(&self, asked: &NewRequest<'_>, stand: Stand) -> Option<u64>
        requires kept { IsKept self.now }
        requires stand { IsStand (batch_of self.now) self.now.batch asked.now.under stand }
        ensures { AreLimited (batch_of self.now) (request_as asked.now) result }
    {
        if !fits_asked(asked) || self.batch.marks.len() >= BATCH_LEN_MAX as usize {
            return None;
        }
        let is_write = is_write(kind_of(&asked.work));
        let len = work_len(&asked.work) as u32;
        self.batch.size_with(is_write, len, stand)
    }

    fn may_fail(&self, asked: &NewRequest<'_>, stand: Stand) -> bool
        requires kept { IsKept self.now }
        requires stand { IsStand (batch_of self.now) self.now.batch asked.now.under stand }
        ensures { result ≡ may_fail asked.now.flag (parent_in (batch_of self.now) asked.now.under)
            (kind_of (work_as asked.now.work)) }
    {
        match asked.flag {
            Some(flag) => flag,
            None => !self.batch.is_under_must(stand) && may_fail_alone(kind_of(&asked.work)),
        }
    }

    // Adds a request that is named, if no later why applies.
    fn add_named(
        &mut self,
        request: Request,
        flag: Option<bool>,
        stand: Stand,
        size: u64,
    ) -> Result<(), Refusal>
        requires kept { IsKept self.old }
        requires named { IsNamed self.old request flag stand size }
        ensures kept { OnOk result (IsKept self.new) }
        ensures added { OnOk result (AddsLine self.old (RequestLine (asked_of request flag)) self.new) }
        ensures why { IfErr result (IsLineWhy self.old (RequestLine (asked_of request flag))) }
    {
        let kind = request.work.kind();
        let is_wrong = self.is_wrong(flag, stand);
        let is_lost = self.is_lost(kind, stand);
        let mark = self.batch.mark(&request, stand);
        if !self.batch.insert_name(&request.work, self.apart)? {
            return Err(Refusal::Faulty(Why::Conflict));
        }
        if is_wrong {
            return Err(Refusal::Faulty(Why::Flag));
        }
        if is_lost {
            return Err(Refusal::Faulty(Why::Parent));
        }
        self.batch.add(mark, stand)?;
        self.batch.size = size;
        self.batch.has_claim |= is_claim(kind);
        self.last = request.number;
        self.items.push(Item::Request(request))?;
        self.begun = true;
        Ok(())
    }

    // A request that may fail would stand there under one that may not.
    fn is_wrong(&self, flag: Option<bool>, stand: Stand) -> bool
        requires { IsStandWithin self.now.batch stand }
        ensures { result ≡ (says_canfail flag && must_at self.now.batch stand) }
    {
        says_canfail(flag) && self.batch.is_under_must(stand)
    }

    // A request of this kind can't stand there, or not beside the others.
    fn is_lost(&self, kind: Kind, stand: Stand) -> bool
        requires kept { IsKept self.now }
        requires stand { IsStandWithin self.now.batch stand }
        ensures { result ≡ (is_full_at self.now.batch kind stand || shares_with_claim (batch_of self.now) kind) }
    {
        self.batch.refuses(kind, stand) || self.shares_with_claim(kind)
    }

    // A claim and another request would be in the batch.
    fn shares_with_claim(&self, kind: Kind) -> bool
        requires { IsKept self.now }
        ensures { result ≡ shares_with_claim (batch_of self.now) kind }
    {
        is_claim(kind) && !self.batch.marks.is_empty() || self.batch.has_claim
    }

    fn add_go(&mut self) -> Result<(), Refusal>
        requires { IsKept self.old }
        ensures kept { OnOk result (IsKept self.new) }
        ensures added { OnOk result (AddsLine self.old GoLine self.new) }
        ensures why { IfErr result (IsLineWhy self.old GoLine) }
    {
        if self.batch.marks.is_empty() {
            return Err(Refusal::Faulty(Why::Order));
        }
        self.items.push(Item::Go)?;
        self.batch.clear();
        self.begun = true;
        Ok(())
    }

    fn add_clear(&mut self) -> Result<(), Refusal>
        requires { IsKept self.old }
        ensures kept { OnOk result (IsKept self.new) }
        ensures added { OnOk result (AddsLine self.old ClearLine self.new) }
        ensures why { IfErr result (IsLineWhy self.old ClearLine) }
    {
        if self.clears >= CLEARS_MAX {
            return Err(Refusal::Faulty(Why::Limit));
        }
        if self.tops.is_empty() || !self.batch.marks.is_empty() {
            return Err(Refusal::Faulty(Why::Order));
        }
        self.items.push(Item::Clear)?;
        self.clears += 1;
        self.begun = true;
        Ok(())
    }
}

// Marks the leaves, and says whether one of them was marked before, or stands twice.
fn repeats_leaf(seen: &mut [bool; 16], leaves: &[u64]) -> bool
    requires { list_all is_leaf leaves.now ≡ true }
    ensures repeats { (before : List ℕ) → Sees seen.old before → result ≡ repeats_leaf before leaves.now }
    ensures seen { (before : List ℕ) → Sees seen.old before → result ≡ false →
        (n : ℕ) → n < 16 → slice_index_or seen.new n false ≡ (is_among before n || is_among leaves.now n) }
{
    match leaves {
        [] => false,
        [leaf, rest @ ..] => {
            let at = *leaf as usize;
            if seen[at] {
                return true;
            }
            seen[at] = true;
            repeats_leaf(seen, rest)
        }
    }
}
