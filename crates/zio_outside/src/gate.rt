ghost use Rattle.std.specs.Prelude.{◌≡◌};

use std::sync::atomic::{AtomicBool, AtomicU64, Ordering};
use std::thread;
use zio_types::ReqNo;

/// Who is asked before each leaf operation, outside every lock, and told of each completion.
///
/// A gate answers nothing. It may hold an operation up, but not for ever.
pub trait Gate: Sync {
    /// The next operation of this request on this leaf begins once this returns.
    fn before(&self, request: ReqNo, leaf: u32);

    /// The request has ended.
    fn completed(&self, request: ReqNo);
}

/// The gate that holds nothing up.
#[derive(Clone, Copy, Debug)]
pub struct NoGate;

impl Gate for NoGate {
    fn before(&self, _request: ReqNo, _leaf: u32) {}

    fn completed(&self, _request: ReqNo) {}
}

/// One of two operations that are to meet.
#[derive(Debug, Drop)]
struct Side {
    request: ReqNo,
    leaf: u32,
    /// It has come to the gate.
    came: AtomicBool,
    /// How many calls of it are at the gate now.
    waiting: AtomicU64,
}

impl Side {
    fn new(operation: (ReqNo, u32)) -> Side
        ensures request { result.request ≡ operation.0 }
        ensures leaf { result.leaf ≡ operation.1 }
    {
        Side {
            request: operation.0,
            leaf: operation.1,
            came: AtomicBool::new(false),
            waiting: AtomicU64::new(0),
        }
    }

    fn is(&self, request: ReqNo, leaf: u32) -> bool {
        self.request == request && self.leaf == leaf
    }

    fn enter(&self) {
        self.waiting.fetch_add(1, Ordering::SeqCst);
        self.came.store(true, Ordering::SeqCst);
    }

    fn leave(&self) {
        self.waiting.fetch_sub(1, Ordering::SeqCst);
    }

    fn has_come(&self) -> bool {
        self.came.load(Ordering::SeqCst)
    }

    fn is_waiting(&self) -> bool {
        self.waiting.load(Ordering::SeqCst) > 0
    }
}

/// A gate at which two leaf operations meet: neither goes on before the other has come, or so many turns have passed.
#[derive(Debug, Drop)]
pub struct MeetGate {
    a: Side,
    b: Side,
    turns: u64,
    met: AtomicBool,
}

impl MeetGate {
    ghost use Rattle.zio_outside.specs.Gates.{first_of, second_of, turns_of};

    /// A gate for two leaf operations, each named by its request and its leaf. In a turn the thread lets others run.
    pub fn new(a: (ReqNo, u32), b: (ReqNo, u32), turns: u64) -> MeetGate
        ensures first { first_of result ≡ a }
        ensures second { second_of result ≡ b }
        ensures turns { turns_of result ≡ turns }
    {
        MeetGate {
            a: Side::new(a),
            b: Side::new(b),
            turns,
            met: AtomicBool::new(false),
        }
    }

    /// Both operations were at the gate at the same time. One thread alone never brings that about, since a call of its
    /// first operation has returned before it calls with the second.
    pub fn met(&self) -> bool {
        self.met.load(Ordering::SeqCst)
    }

    /// Holds the one operation up for the other. Whoever comes second finds the first waiting, whatever the
    /// interleaving: each tells of itself before it looks for the other.
    fn wait(&self, mine: &Side, other: &Side) {
        mine.enter();
        if other.is_waiting() {
            self.met.store(true, Ordering::SeqCst);
        }
        for _ in 0..self.turns {
            if other.has_come() {
                break;
            }
            thread::yield_now();
        }
        mine.leave();
    }
}

impl Gate for MeetGate {
    fn before(&self, request: ReqNo, leaf: u32) {
        if self.a.is(request, leaf) {
            self.wait(&self.a, &self.b);
        } else if self.b.is(request, leaf) {
            self.wait(&self.b, &self.a);
        }
    }

    fn completed(&self, _request: ReqNo) {}
}
