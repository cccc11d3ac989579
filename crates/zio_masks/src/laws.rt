ghost use Rattle.std.specs.Prelude.{◌≡◌, ◌∷◌, [], ◌<◌, ◌^◌};
ghost use Rattle.zio_masks.specs.Stages.{IsPipelineOf};
ghost use Rattle.zio_masks.specs.declared.stage.Stage.TheVariants.{ReadBpInit, WriteBpInit, FreeBpInit, IssueAsync, WriteCompress, ChecksumGenerate, DvaAllocate, DvaFree, DvaClaim, Ready, VdevIoStart, VdevIoDone, VdevIoAssess, ChecksumVerify, Done};

use crate::pipeline::{CLAIM, FREE, INTERLOCK, NULL, READ, REWRITE, VDEV_CHILD, VDEV_IO, WRITE};

/// Each pipeline has these stages, and nothing else.
pub fn pipelines_have_their_stages()
    ensures interlock { IsPipelineOf INTERLOCK (Ready ∷ Done ∷ []) }
    ensures vdev_io { IsPipelineOf VDEV_IO (VdevIoStart ∷ VdevIoDone ∷ VdevIoAssess ∷ []) }
    ensures read { IsPipelineOf READ
        (ReadBpInit ∷ Ready ∷ VdevIoStart ∷ VdevIoDone ∷ VdevIoAssess ∷ ChecksumVerify ∷ Done ∷ []) }
    ensures write { IsPipelineOf WRITE
        (WriteBpInit ∷ IssueAsync ∷ WriteCompress ∷ ChecksumGenerate ∷ DvaAllocate ∷ Ready ∷ VdevIoStart ∷ VdevIoDone
        ∷ VdevIoAssess ∷ Done ∷ []) }
    ensures rewrite { IsPipelineOf REWRITE
        (WriteBpInit ∷ IssueAsync ∷ WriteCompress ∷ ChecksumGenerate ∷ Ready ∷ VdevIoStart ∷ VdevIoDone ∷ VdevIoAssess
        ∷ Done ∷ []) }
    ensures free { IsPipelineOf FREE (FreeBpInit ∷ IssueAsync ∷ DvaFree ∷ Ready ∷ Done ∷ []) }
    ensures claim { IsPipelineOf CLAIM (DvaClaim ∷ Ready ∷ Done ∷ []) }
    ensures vdev_child { IsPipelineOf VDEV_CHILD (VdevIoStart ∷ VdevIoDone ∷ VdevIoAssess ∷ Done ∷ []) }
    ensures null { IsPipelineOf NULL (Ready ∷ Done ∷ []) }
{}
