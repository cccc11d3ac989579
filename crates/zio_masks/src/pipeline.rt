ghost use Rattle.std.specs.Prelude.{◌≡◌, ◌<◌, ◌||◌, bit_or, IsTrue};
ghost use Rattle.zio_masks.specs.Stages.{gang_bits, has, is_gang_stage, IsNext, number_of};
ghost use Rattle.zio_masks.specs.declared.stage.Stage.{Stage};
ghost use Rattle.zio_masks.specs.declared.stage.Stage.TheVariants.{Done};

use crate::stage::{Stage, number, stage_at};

/// The stages that a request takes: the bit of a stage's number is 1 where it is one of them.
#[derive(Clone, Copy, Debug, PartialEq, Eq)]
pub struct Pipeline {
    pub bits: u32,
}

/// What every request but a vdev child takes.
pub const INTERLOCK: Pipeline = Pipeline {
    bits: 1 << Stage::Ready as u32 | 1 << Stage::Done as u32,
};

/// What a request takes that reads or writes copies.
pub const VDEV_IO: Pipeline = Pipeline {
    bits: 1 << Stage::VdevIoStart as u32
        | 1 << Stage::VdevIoDone as u32
        | 1 << Stage::VdevIoAssess as u32,
};

pub const READ: Pipeline = Pipeline {
    bits: INTERLOCK.bits
        | VDEV_IO.bits
        | 1 << Stage::ReadBpInit as u32
        | 1 << Stage::ChecksumVerify as u32,
};

/// A write whose places are there: a gang's header.
pub const REWRITE: Pipeline = Pipeline {
    bits: INTERLOCK.bits
        | VDEV_IO.bits
        | 1 << Stage::WriteBpInit as u32
        | 1 << Stage::IssueAsync as u32
        | 1 << Stage::WriteCompress as u32
        | 1 << Stage::ChecksumGenerate as u32,
};

pub const WRITE: Pipeline = Pipeline {
    bits: REWRITE.bits | 1 << Stage::DvaAllocate as u32,
};

pub const FREE: Pipeline = Pipeline {
    bits: INTERLOCK.bits
        | 1 << Stage::FreeBpInit as u32
        | 1 << Stage::IssueAsync as u32
        | 1 << Stage::DvaFree as u32,
};

pub const CLAIM: Pipeline = Pipeline {
    bits: INTERLOCK.bits | 1 << Stage::DvaClaim as u32,
};

/// A part of a read or write: it has no readiness of its own.
pub const VDEV_CHILD: Pipeline = Pipeline {
    bits: VDEV_IO.bits | 1 << Stage::Done as u32,
};

pub const NULL: Pipeline = INTERLOCK;

/// The gang stages.
const GANG: u32 = 1 << Stage::GangAssemble as u32 | 1 << Stage::GangIssue as u32;

/// The first stage of the pipeline after this one.
pub fn next(stage: Stage, mask: Pipeline) -> Stage
    requires ends { IsTrue (has mask Done) }
    requires before { number_of stage < number_of Done }
    ensures { IsNext mask stage result }
{
    let first = number(stage) + 1;
    let behind = mask.bits >> first;
    stage_at(first + behind.trailing_zeros())
}

/// The pipeline with the gang stages beside its own.
pub fn with_gang(mask: Pipeline) -> Pipeline
    ensures stages { (stage : Stage) → has result stage ≡ (has mask stage || is_gang_stage stage) }
    ensures bits { result.bits ≡ bit_or mask.bits gang_bits }
{
    Pipeline {
        bits: mask.bits | GANG,
    }
}
