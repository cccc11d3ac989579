//! A report as rounds of a script's requests.

use crate::asked::Asking;
use crate::fault::{DrawingFault, ReportFault, fault_at};
use std::alloc::{AllocError, AllocFailed, Global};
use zio_report::RoundHead;
use zio_told::{Line, Outcome, Plain, RequestLine};
use zio_types::{Entry, Place, ReqNo};

/// The sectors of the largest image.
pub(crate) const SECTORS_MAX: u64 = 524_288;

/// A request in a round.
#[derive(Clone, Copy)]
pub(crate) struct Row {
    pub(crate) number: ReqNo,
    /// Where the request stands in the script.
    pub(crate) asked: usize,
    pub(crate) outcome: Outcome,
    /// Its line in the report, from 0.
    pub(crate) line: usize,
    /// How many attempts its entries show, 0 where it has none.
    pub(crate) attempts: u32,
    /// How many of its entries were refused.
    pub(crate) refused: u32,
    /// How many requests had completed in the round when it did.
    pub(crate) ended: Option<u32>,
    /// Where it is drawn.
    pub(crate) y: u32,
}

/// An entry, and its line in the report, from 0.
#[derive(Drop)]
pub(crate) struct Take {
    pub(crate) entry: Entry,
    pub(crate) line: usize,
    /// Where the request's row stands in its round.
    pub(crate) row: usize,
}

/// A round.
#[derive(Drop)]
pub(crate) struct Round {
    pub(crate) head: RoundHead,
    /// By rising number.
    pub(crate) rows: Vec<Row>,
    pub(crate) takes: Vec<Take>,
    /// How many requests completed in it.
    pub(crate) completed: u32,
}

/// What a report tells in turn.
#[derive(Drop)]
pub(crate) enum Step {
    Round(Round),
    /// A batch is held.
    Held(u32),
}

/// A report.
#[derive(Drop)]
pub(crate) struct Report {
    pub(crate) images: u32,
    pub(crate) steps: Vec<Step>,
    /// The code of its last line, none where it has no such line.
    pub(crate) end: Option<u32>,
}

/// What the lines of a report tell of a script that has so many tops.
pub(crate) fn read_report(
    alloc: Global,
    asking: &Asking<'_>,
    tops: usize,
    lines: Vec<Line>,
) -> Result<Report, DrawingFault> {
    let mut reader = Reader {
        images: None,
        steps: Vec::new(alloc),
        open: None,
        end: None,
    };
    for (at, line) in lines.into_iter().enumerate() {
        if let Err(refusal) = reader.add(alloc, asking, tops, at, line) {
            return Err(refusal.at(at));
        }
    }
    reader.close_round()?;
    match reader.images {
        Some(images) => Ok(Report {
            images,
            steps: reader.steps,
            end: reader.end,
        }),
        None => Err(fault_at(0, ReportFault::Order)),
    }
}

/// Why a line isn't taken.
#[derive(Clone, Copy)]
enum Refusal {
    Fault(ReportFault),
    Memory,
}

impl Refusal {
    fn at(self, at: usize) -> DrawingFault {
        match self {
            Refusal::Fault(why) => fault_at(at, why),
            Refusal::Memory => DrawingFault::Memory,
        }
    }
}

impl From<AllocError> for Refusal {
    fn from(_refused: AllocError) -> Refusal {
        Refusal::Memory
    }
}

impl<T: Drop> From<AllocFailed<T>> for Refusal {
    fn from(_refused: AllocFailed<T>) -> Refusal {
        Refusal::Memory
    }
}

const OUT_OF_PLACE: Refusal = Refusal::Fault(ReportFault::Order);

const STRANGE: Refusal = Refusal::Fault(ReportFault::Stranger);

/// What was read of a report.
#[derive(Drop)]
struct Reader {
    images: Option<u32>,
    steps: Vec<Step>,
    /// The round whose lines are being read.
    open: Option<Round>,
    end: Option<u32>,
}

impl Reader {
    fn add(
        &mut self,
        alloc: Global,
        asking: &Asking<'_>,
        tops: usize,
        at: usize,
        line: Line,
    ) -> Result<(), Refusal> {
        if self.end.is_some() || self.images.is_some() == (at == 0) {
            return Err(OUT_OF_PLACE);
        }
        match line {
            Line::Plain(Plain::Pool { tops: told, images }) if at == 0 => {
                self.images = Some(images);
                if told as usize == tops {
                    Ok(())
                } else {
                    Err(STRANGE)
                }
            }
            Line::Plain(Plain::Pool { .. }) => Err(OUT_OF_PLACE),
            Line::Plain(Plain::Round(head)) => self.open_round(alloc, asking, head),
            Line::Plain(Plain::Held(batch)) => self.add_held(asking, batch),
            Line::Plain(Plain::End(code)) => {
                self.end = Some(code);
                Ok(())
            }
            Line::Plain(Plain::Request(line)) => match &mut self.open {
                Some(round) => round.add_request(asking, at, &line),
                None => Err(OUT_OF_PLACE),
            },
            Line::Take(entry) => match &mut self.open {
                Some(round) => round.add_take(tops, at, entry),
                None => Err(OUT_OF_PLACE),
            },
            Line::Order(numbers) => match &mut self.open {
                Some(round) => round.add_order(numbers.as_slice()),
                None => Err(OUT_OF_PLACE),
            },
        }
    }

    // The round whose lines were read has no more.
    fn close_round(&mut self) -> Result<(), AllocError> {
        match self.open.take() {
            Some(round) => Ok(self.steps.push(Step::Round(round))?),
            None => Ok(()),
        }
    }

    fn open_round(
        &mut self,
        alloc: Global,
        asking: &Asking<'_>,
        head: RoundHead,
    ) -> Result<(), Refusal> {
        if head
            .batch
            .is_some_and(|batch| !asking.comments.has_batch(batch))
        {
            return Err(STRANGE);
        }
        self.close_round()?;
        self.open = Some(Round {
            head,
            rows: Vec::new(alloc),
            takes: Vec::new(alloc),
            completed: 0,
        });
        Ok(())
    }

    fn add_held(&mut self, asking: &Asking<'_>, batch: u32) -> Result<(), Refusal> {
        if !asking.comments.has_batch(batch) {
            return Err(STRANGE);
        }
        self.close_round()?;
        Ok(self.steps.push(Step::Held(batch))?)
    }
}

impl Round {
    /// Where the row of this request stands.
    pub(crate) fn find(&self, number: ReqNo) -> Option<usize> {
        self.rows
            .binary_search_by_key(&number, |row| row.number)
            .ok()
    }

    fn add_request(
        &mut self,
        asking: &Asking<'_>,
        line: usize,
        told: &RequestLine,
    ) -> Result<(), Refusal> {
        if self
            .rows
            .last()
            .is_some_and(|row| row.number >= told.number)
        {
            return Err(OUT_OF_PLACE);
        }
        let Some(at) = asking.find(told.number) else {
            return Err(STRANGE);
        };
        if !asking
            .get(at)
            .is_some_and(|asked| asked.kind == told.kind && asked.name == told.name)
        {
            return Err(STRANGE);
        }
        self.rows.push(Row {
            number: told.number,
            asked: at,
            outcome: told.outcome,
            line,
            attempts: 0,
            refused: 0,
            ended: None,
            y: 0,
        })?;
        Ok(())
    }

    fn add_take(&mut self, tops: usize, line: usize, entry: Entry) -> Result<(), Refusal> {
        let Some(at) = self.find(entry.key.request) else {
            return Err(STRANGE);
        };
        if !places_of(&entry).iter().all(|place| (place.top as usize) < tops
            && place.sector < SECTORS_MAX)
        {
            return Err(STRANGE);
        }
        if let Some(row) = self.rows.get_mut(at) {
            row.attempts = row.attempts.max(entry.key.attempt.saturating_add(1));
            if entry.found < entry.copies {
                row.refused = row.refused.saturating_add(1);
            }
        }
        self.takes.push(Take {
            entry,
            line,
            row: at,
        })?;
        Ok(())
    }

    fn add_order(&mut self, numbers: &[ReqNo]) -> Result<(), Refusal> {
        for number in numbers {
            let Some(at) = self.find(*number) else {
                return Err(STRANGE);
            };
            self.completed = self.completed.saturating_add(1);
            if let Some(row) = self.rows.get_mut(at) {
                row.ended = Some(self.completed);
            }
        }
        Ok(())
    }
}

/// The places that were found.
pub(crate) fn places_of(entry: &Entry) -> &[Place] {
    match entry.places.get(..entry.found as usize) {
        Some(places) => places,
        None => &[],
    }
}
