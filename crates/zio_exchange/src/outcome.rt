//! What a node ends with.

ghost use Rattle.std.specs.Prelude.{◌≡◌};

use crate::summed::Summed;
use crate::whole::Whole;
use std::marker::Model;
use zio_blkptr::Bp;
use zio_gang::Tree;
use zio_parts::{StoredPart, Walked};
use zio_types::{Bits, Bytes, Errno, ReqNo};

/// What is told of a request that finished.
#[derive(Debug, Drop)]
pub struct FinishedRequest {
    pub request: ReqNo,
    /// The label of its node.
    pub label: u64,
    pub error: Option<Errno>,
    /// Of a read without error.
    pub bytes: Bytes,
    /// The block that a write or a claim without error made.
    pub block: Option<Tree>,
    /// The pointer that a write told.
    pub pointer: Option<Bp>,
}

/// A request that finished, under the seal of those who make it so: who has no seal can make none, and none can be
/// changed. A contract sees what is told of the request.
#[derive(Debug, Drop)]
pub struct Finished<S> {
    told: FinishedRequest,
    /// Never read: that it is there shows who made this.
    seal: S,
}

impl<S> Model for Finished<S> {
    ghost use Rattle.zio_exchange.specs.declared.outcome.FinishedRequest.{FinishedRequest};

    ghost Value = { FinishedRequest };

    ghost view = { λ f. f.told };
}

impl<S> Finished<S> {
    pub fn new(seal: S, told: FinishedRequest) -> Finished<S>
        ensures { result ≡ told }
    {
        Finished { told, seal }
    }

    pub fn request(&self) -> ReqNo
        ensures { result ≡ self.now.request }
    {
        self.told.request
    }

    pub fn error(&self) -> Option<Errno>
        ensures { result ≡ self.now.error }
    {
        self.told.error
    }

    /// The pointer that it told, which its parent has.
    pub fn pointer(&self) -> Option<Bp>
        ensures { result ≡ self.now.pointer }
    {
        self.told.pointer
    }
}

impl<S: Drop> Finished<S> {
    /// Its number, its error or none, the bytes that it read, and the block that it made.
    pub fn into_parts(self) -> (ReqNo, Option<Errno>, Bytes, Option<Tree>)
        ensures request { result.0 ≡ self.request }
        ensures error { result.1 ≡ self.error }
        ensures bytes { result.2 ≡ self.bytes }
        ensures block { result.3 ≡ self.block }
    {
        let Finished { told, .. } = self;
        let FinishedRequest {
            request,
            error,
            bytes,
            block,
            ..
        } = told;
        (request, error, bytes, block)
    }
}

/// What a node ends with.
#[derive(Debug, Drop)]
pub enum Outcome<S> {
    /// A request finished.
    Finished(Finished<S>),
    /// A request goes again with these bits: what is left of its tree, and the pointer that it told.
    Again {
        whole: Whole,
        bits: Bits,
        pointer: Option<Bp>,
    },
    /// What an operation on a leaf, or a read of copies, answered: the bytes, none of a write, or an error.
    Found(Result<Summed, Errno>),
    /// What a walk over headers left.
    Walked(Walked),
    /// What a part left that was written.
    Stored(StoredPart),
}
