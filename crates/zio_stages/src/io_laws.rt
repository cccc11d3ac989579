// What a part asks of leaves while it reads or writes a block's copies.

ghost use Rattle.std.specs.Prelude.{◌≡◌, ◌↔◌, ℕ, List, None, Some, slice_get};
ghost use Rattle.zio_gang.specs.Attempts.{Terms};
ghost use Rattle.zio_frames.specs.Frames.{Frame};
ghost use Rattle.zio_frames.specs.Slots.{IsOut};
ghost use Rattle.zio_stages.specs.LeavesOut.{HasAskedLeaves};
ghost use Rattle.zio_stages.specs.ReadIos.{IsReadIo, IsReadOutIn};
ghost use Rattle.zio_stages.specs.WriteIos.{IsOutIn, IsWriteIo};
ghost use Rattle.zio_stages.specs.declared.read_io.ReadIo.{ReadIo};
ghost use Rattle.zio_stages.specs.declared.write_io.WriteIo.{WriteIo};

/// All that it asked are operations on leaves, and those that are out are those that the read or the write waits for.
pub fn reads_and_writes_of_copies_ask_leaves()
    ensures write_asks { (t : Terms) (bytes : List ℕ) (w : WriteIo) (x : Frame) → IsWriteIo t bytes w x
        → HasAskedLeaves x }
    ensures write_outs { (t : Terms) (bytes : List ℕ) (w : WriteIo) (x : Frame) (n : ℕ) → IsWriteIo t bytes w x →
        (slice_get x.slots n ≡ Some (IsOut None)) ↔ IsOutIn w n }
    ensures read_asks { (t : Terms) (w : ReadIo) (x : Frame) → IsReadIo t w x → HasAskedLeaves x }
    ensures read_outs { (t : Terms) (w : ReadIo) (x : Frame) (n : ℕ) → IsReadIo t w x →
        (slice_get x.slots n ≡ Some (IsOut None)) ↔ IsReadOutIn w n }
{}
