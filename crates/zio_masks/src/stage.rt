ghost use Rattle.std.specs.Prelude.{◌≡◌, ◌<◌};
ghost use Rattle.zio_masks.specs.Stages.{number_of};

/// A step of a request's pipeline, in the order in which a request takes them.
#[derive(Clone, Copy, Debug, PartialEq, Eq)]
pub enum Stage {
    /// The request was made.
    Start,
    /// Adds the gang stages to a read whose pointer is a gang.
    ReadBpInit,
    /// Sets the fixed fields of a write's pointer.
    WriteBpInit,
    /// Adds the gang stages to a free whose pointer is a gang.
    FreeBpInit,
    /// Moves the request to the issue queue of its kind.
    IssueAsync,
    /// Waits until gang and logical children are ready, and sets the content.
    WriteCompress,
    /// Sets the checksum words.
    ChecksumGenerate,
    /// Reads the header tree.
    GangAssemble,
    /// Reads the members, or frees or claims the tree's places.
    GangIssue,
    /// Takes places, or becomes a gang.
    DvaAllocate,
    /// Frees the places.
    DvaFree,
    /// Claims the places.
    DvaClaim,
    /// Waits until gang children are ready, and gives the ready value.
    Ready,
    /// Adds vdev children, or hands a leaf operation to its queue.
    VdevIoStart,
    /// Waits until vdev children are done.
    VdevIoDone,
    /// Retries once, or shortens the pipeline after an error.
    VdevIoAssess,
    /// Verifies what the vdev children of a read didn't verify.
    ChecksumVerify,
    /// Waits until all children are done, and ends the request.
    Done,
}

/// All stages, each at its number.
const STAGES: [Stage; 18] = [
    Stage::Start,
    Stage::ReadBpInit,
    Stage::WriteBpInit,
    Stage::FreeBpInit,
    Stage::IssueAsync,
    Stage::WriteCompress,
    Stage::ChecksumGenerate,
    Stage::GangAssemble,
    Stage::GangIssue,
    Stage::DvaAllocate,
    Stage::DvaFree,
    Stage::DvaClaim,
    Stage::Ready,
    Stage::VdevIoStart,
    Stage::VdevIoDone,
    Stage::VdevIoAssess,
    Stage::ChecksumVerify,
    Stage::Done,
];

/// The place of a stage in the order, and its bit in a pipeline.
pub(crate) fn number(stage: Stage) -> u32
    ensures { result ≡ number_of stage }
{
    stage as u32
}

/// The stage of a number.
pub(crate) fn stage_at(number: u32) -> Stage
    requires { number < 18 }
    ensures { number_of result ≡ number }
{
    STAGES[number as usize]
}
