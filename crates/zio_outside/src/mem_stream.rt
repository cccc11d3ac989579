ghost use Rattle.std.specs.Prelude.{◌≡◌, ◌<◌, ◌≤◌, ◌+◌, ◌-◌, ◌⊎◌, ◌↔◌, ℕ, List, [], length, drop, min};
ghost use Rattle.std.specs.Prelude.{vec_len, vec_capacity, IfOk, IsErr, IsOk, OnErr, OnOk};
ghost use Rattle.std.specs.List.{Contains};
ghost use Rattle.zio_outside.specs.Outside.{Appends, AppendsFront, CountsFault, Moves, count_max, counted};

use crate::calls::Calls;
use crate::{Failed, Sink, Source};
use std::alloc::Global;
use zio_types::{Bytes, List, NoMemory};

/// A source of bytes in memory, which tells what is left.
#[derive(Debug, Drop)]
pub struct MemSource {
    bytes: Bytes,
    moved: usize,
    calls: Calls,
    ghost within: { moved ≤ length bytes },
}

impl MemSource {
    ghost use Rattle.zio_outside.specs.Memory.{source_left, source_faults, source_fails, source_calls};

    /// A source of these bytes, without a fault. The calls of `read` with the numbers in `fails`, counted from 0, fail.
    pub fn new(bytes: Bytes, fails: List<u64>) -> MemSource
        ensures left { source_left result ≡ bytes }
        ensures faults { source_faults result ≡ 0 }
        ensures fails { source_fails result ≡ fails }
        ensures calls { source_calls result ≡ 0 }
    {
        MemSource {
            bytes,
            moved: 0,
            calls: Calls::new(fails),
        }
    }
}

impl Source for MemSource {
    ghost use Rattle.zio_outside.specs.Memory.{told, source_left, source_faults, source_fails, source_calls, IsSoundSource};
    ghost use Rattle.zio_outside.specs.Memory.{IsSteady-below_max};

    ghost faults = { source_faults };

    ghost left = { λ s. told (source_left s) };

    ghost sound = { IsSoundSource };

    /// Moves as many bytes as are left and the buffer holds. A call that is listed raises the count of faults by one
    /// and moves nothing.
    fn read(&mut self, buffer: &mut [u8]) -> Result<usize, Failed>
        ensures count { CountsFault result (source_faults self.old) (source_faults self.new) }
        ensures sound { IsSoundSource self.old →
            IsSoundSource self.new × (source_faults self.new ≡ source_faults self.old) }
        ensures within { IfOk result (λ n. n ≤ length buffer.old) }
        ensures moved { IfOk result (λ n. (bytes : List ℕ) → told (source_left self.old) bytes →
            Moves bytes buffer.old buffer.new n × told (source_left self.new) (drop n bytes)) }

        // Beside what each source ensures: how many bytes are moved, which calls fail, and what they leave.
        ensures most { IfOk result (λ n. n ≡ min (length buffer.old) (length (source_left self.old))) }
        ensures listed { IsErr result ↔ Contains (source_fails self.old) (source_calls self.old) }
        ensures steady { source_fails self.old ≡ [] → IsOk result }
        ensures raised { OnErr result (source_faults self.new ≡ counted (source_faults self.old)) }
        ensures kept { OnErr result
            ((source_left self.new ≡ source_left self.old) × (buffer.new ≡ buffer.old)) }
        ensures fails { source_fails self.new ≡ source_fails self.old }
        ensures calls { source_calls self.new ≡ counted (source_calls self.old) }
    {
        self.calls.begin()?;
        let left = &self.bytes.as_slice()[self.moved..];
        let n = left.len().min(buffer.len());
        buffer[..n].copy_from_slice(&left[..n]);
        self.moved += n;
        Ok(n)
    }

    ghost sound_counts = { λ s sound. IsSteady-below_max (source_fails s) (source_faults s) sound };
}

/// A sink in memory with a fixed room, which tells what it holds.
#[derive(Debug, Drop)]
pub struct MemSink {
    held: Vec<u8>,
    room: usize,
    calls: Calls,
    ghost within: { vec_len held ≤ room },
    ghost taken: { room ≤ vec_capacity held },
}

impl MemSink {
    ghost use Rattle.zio_outside.specs.Memory.{sink_held, sink_room, sink_faults, sink_fails, sink_calls};

    /// An empty sink with room for so many bytes, all taken now, without a fault. The calls of `write` with the numbers
    /// in `fails`, counted from 0, fail.
    pub fn new(alloc: Global, room: u64, fails: List<u64>) -> Result<MemSink, NoMemory>
        ensures held { IfOk result (λ s. sink_held s ≡ []) }
        ensures room { IfOk result (λ s. sink_room s ≡ room) }
        ensures faults { IfOk result (λ s. sink_faults s ≡ 0) }
        ensures fails { IfOk result (λ s. sink_fails s ≡ fails) }
        ensures calls { IfOk result (λ s. sink_calls s ≡ 0) }
    {
        let room = room as usize;
        Ok(MemSink {
            held: Vec::with_capacity(alloc, room)?,
            room,
            calls: Calls::new(fails),
        })
    }

    /// What was written.
    pub fn held(&self) -> &[u8]
        ensures { result.now ≡ sink_held self.now }
    {
        self.held.as_slice()
    }
}

impl Sink for MemSink {
    ghost use Rattle.zio_outside.specs.Memory.{told, sink_held, sink_room, sink_faults, sink_fails, sink_calls, IsSoundSink};
    ghost use Rattle.zio_outside.specs.Memory.{IsSteady-below_max, IsSoundSink-fewer};

    ghost faults = { sink_faults };

    ghost holds = { λ s. told (sink_held s) };

    ghost sound = { IsSoundSink };

    /// Appends the piece, without memory. A call that is listed, and one whose piece doesn't fit into what is left of
    /// the room, raises the count of faults by one and appends nothing.
    fn write(&mut self, piece: &[u8]) -> Result<(), Failed>
        ensures count { CountsFault result (sink_faults self.old) (sink_faults self.new) }
        ensures sound { (more : ℕ) → IsSoundSink self.old (length piece.now + more) →
            IsSoundSink self.new more × (sink_faults self.new ≡ sink_faults self.old) }
        ensures ok { OnOk result (Appends (told (sink_held self.old)) (told (sink_held self.new)) piece.now) }
        ensures failed { OnErr result
            (AppendsFront (told (sink_held self.old)) (told (sink_held self.new)) piece.now) }

        // Beside what each sink ensures: which calls fail, and what they leave.
        ensures cause { IsErr result ↔ (Contains (sink_fails self.old) (sink_calls self.old)
            ⊎ (sink_room self.old < length (sink_held self.old) + length piece.now)) }
        ensures steady { sink_fails self.old ≡ [] →
            length (sink_held self.old) + length piece.now ≤ sink_room self.old → IsOk result }
        ensures raised { OnErr result (sink_faults self.new ≡ counted (sink_faults self.old)) }
        ensures kept { OnErr result (sink_held self.new ≡ sink_held self.old) }
        ensures room { sink_room self.new ≡ sink_room self.old }
        ensures fails { sink_fails self.new ≡ sink_fails self.old }
        ensures calls { sink_calls self.new ≡ counted (sink_calls self.old) }
    {
        self.calls.begin()?;
        if piece.len() > self.room - self.held.len() {
            return self.calls.fault();
        }
        self.held.extend_from_slice(piece).map_err(|_| Failed)
    }

    ghost sound_counts = { λ s room sound. IsSteady-below_max (sink_fails s) (sink_faults s) sound.steady };

    ghost sound_fewer = { IsSoundSink-fewer };
}
