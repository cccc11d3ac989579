//! What a script asks, request by request, with the text of its lines.

use crate::captions::Comments;
use std::alloc::Global;
use zio_blkptr::{Bp, decode};
use zio_script::{DEPTH_MAX, Item, Name, Request, Script, Work};
use zio_types::{Kind, NoMemory, ReqNo};

/// The numbers of a request and of those above it, the root's first, and zeros behind.
type Chain = [u32; DEPTH_MAX as usize];

/// A request of a script.
#[derive(Clone, Copy)]
pub(crate) struct Asked {
    pub(crate) number: ReqNo,
    pub(crate) kind: Kind,
    pub(crate) name: Option<Name>,
    /// What a claim claims.
    pub(crate) claimed: Option<Bp>,
    pub(crate) under: Option<ReqNo>,
    /// How many stand above it.
    pub(crate) depth: u32,
    /// Its place among all requests, where each has its children right behind it.
    pub(crate) rank: usize,
    /// Its line in the script, from 0.
    pub(crate) line: usize,
    chain: Chain,
}

/// A script with its text.
#[derive(Drop)]
pub(crate) struct Asking<'a> {
    /// By rising number.
    requests: Vec<Asked>,
    pub(crate) comments: Comments,
    /// The lines, without blanks at their ends.
    lines: Vec<&'a [u8]>,
}

/// What a line of an accepted script is for.
#[derive(Clone, Copy)]
enum LineRole {
    Blank,
    Comment,
    Head,
    Item,
}

impl<'a> Asking<'a> {
    /// What an accepted script asks, whose text this is.
    pub(crate) fn of(
        alloc: Global,
        script: &Script,
        text: &'a [u8],
    ) -> Result<Asking<'a>, NoMemory> {
        let mut requests = Vec::new(alloc);
        let mut comments = Comments::new(alloc);
        let mut lines = Vec::new(alloc);
        let mut items = script.items.as_slice().iter();
        for line in text.split(|c| *c == b'\n') {
            let line = line.trim_ascii();
            match role_of(line) {
                LineRole::Blank => {}
                LineRole::Comment => comments.add(line)?,
                LineRole::Head => comments.end_head()?,
                LineRole::Item => {
                    if let Some(item) = items.next() {
                        add_item(alloc, &mut requests, &mut comments, item, lines.len())?;
                    }
                }
            }
            lines.push(line)?;
        }
        rank_all(alloc, &mut requests)?;
        Ok(Asking {
            requests,
            comments,
            lines,
        })
    }

    /// Where the request of this number stands.
    pub(crate) fn find(&self, number: ReqNo) -> Option<usize> {
        find(self.requests.as_slice(), number)
    }

    pub(crate) fn get(&self, at: usize) -> Option<&Asked> {
        self.requests.get(at)
    }

    /// The line of this request in the script.
    pub(crate) fn line_of(&self, asked: &Asked) -> &'a [u8] {
        match self.lines.get(asked.line) {
            Some(line) => line,
            None => &[],
        }
    }

    pub(crate) fn len(&self) -> usize {
        self.requests.len()
    }
}

// The item stands in this line, from 0.
fn add_item(
    alloc: Global,
    requests: &mut Vec<Asked>,
    comments: &mut Comments,
    item: &Item,
    line: usize,
) -> Result<(), NoMemory> {
    comments.end_item(alloc, item)?;
    if let Item::Request(request) = item {
        let asked = asked_by(requests.as_slice(), request, line);
        requests.push(asked)?;
    }
    Ok(())
}

// Where the request of this number stands.
fn find(requests: &[Asked], number: ReqNo) -> Option<usize> {
    requests
        .binary_search_by_key(&number, |asked| asked.number)
        .ok()
}

// `requests` are those before it.
fn asked_by(requests: &[Asked], request: &Request, line: usize) -> Asked {
    let parent = match request.under {
        Some(under) => find(requests, under).and_then(|at| requests.get(at)),
        None => None,
    };
    let (depth, chain) = match parent {
        Some(parent) => (parent.depth.saturating_add(1), parent.chain),
        None => (0, [0; DEPTH_MAX as usize]),
    };
    let (kind, name) = work_of(&request.work);
    Asked {
        number: request.number,
        kind,
        name,
        claimed: claimed_by(&request.work),
        under: request.under,
        depth,
        rank: 0,
        line,
        chain: with_link(chain, depth as usize, request.number),
    }
}

// The chain with one more number.
fn with_link(chain: Chain, depth: usize, number: ReqNo) -> Chain {
    let mut chain = chain;
    if depth < chain.len() {
        chain[depth] = number;
    }
    chain
}

fn role_of(line: &[u8]) -> LineRole {
    if line.is_empty() {
        return LineRole::Blank;
    }
    if line[0] == b'#' {
        return LineRole::Comment;
    }
    let is_head = line.starts_with(b"failmode")
        || line.starts_with(b"top")
        || line.starts_with(b"fault");
    if is_head {
        LineRole::Head
    } else {
        LineRole::Item
    }
}

fn work_of(work: &Work) -> (Kind, Option<Name>) {
    match work {
        Work::Null => (Kind::Null, None),
        Work::Read { name, .. } => (Kind::Read, Some(*name)),
        Work::Write { name, .. } => (Kind::Write, Some(*name)),
        Work::Free { name } => (Kind::Free, Some(*name)),
        Work::Claim { name, .. } => (Kind::Claim, Some(*name)),
    }
}

fn claimed_by(work: &Work) -> Option<Bp> {
    match work {
        Work::Claim { pointer, .. } => decode(pointer).ok(),
        _ => None,
    }
}

/// A request's chain, by which each comes before its children, and where it stands by number.
#[derive(Clone, Copy, PartialEq, Eq, PartialOrd, Ord)]
struct Ranked {
    chain: Chain,
    at: usize,
}

// Gives each request its rank.
fn rank_all(alloc: Global, requests: &mut [Asked]) -> Result<(), NoMemory> {
    let mut order = Vec::new(alloc);
    for (at, asked) in requests.iter().enumerate() {
        order.push(Ranked {
            chain: asked.chain,
            at,
        })?;
    }
    order.sort()?;
    for (rank, ranked) in order.iter().enumerate() {
        if let Some(asked) = requests.get_mut(ranked.at) {
            asked.rank = rank;
        }
    }
    Ok(())
}
