//! The verdict over the bytes of the files.

ghost use Rattle.std.specs.Prelude.{◌≡◌, ◌≤◌, [], IfOk, IfSome, IsErrOf, drop, length, map};
ghost use Rattle.zio_audit.specs.Audits.{MayBeAudited};
ghost use Rattle.zio_audit.specs.Seen.{IsJudgedAs, IsSeenIn, verdict_of};
ghost use Rattle.zio_audit.specs.Verdicts.{Case, IsVerdict};
ghost use Rattle.zio_cksum.specs.Images.{Images};
ghost use Rattle.zio_disks.specs.Disks.{Handles};
ghost use Rattle.zio_audit_run.specs.Files.{AreFit, case_of, files_in};
ghost use Rattle.zio_audit_run.specs.Reads.{AreBytesOf, TellStill};
ghost use Rattle.zio_audit_run.specs.Words.{IsCount};

use crate::read::read_files;
use crate::sizes::images_among;
use std::alloc::Global;
use zio_audit::{Judged, Seen, audit_rounds};
use zio_disks::Stop;
use zio_outside::Disk;
use zio_types::{Bytes, NoMemory};

/// Where the first reason to say no is seen in the files of these disks, none where there is none: the script, the
/// report, the images before the run, and as many after it.
///
/// The images after are read once the rounds are judged and nothing but the images that the run leaves is held, so that
/// a round is run beside one set of images.
pub(crate) fn judge<D: Disk>(alloc: Global, disks: &mut [D]) -> Result<Option<Seen>, Stop>
    requires count { IsCount (length disks.old) }
    requires fit { AreFit (map D.bytes disks.old) }
    ensures seen { IfOk result (λ seen. (c : Case) × AreBytesOf D.bytes D.image disks.old (files_in c)
        × MayBeAudited c × IsVerdict c (verdict_of seen) × IfSome seen (IsSeenIn c)) }
    ensures still { TellStill D.image disks.old disks.new }
    ensures handled { Handles D.bytes D.faults D.faults_at_fetch D.home D.image D.sound D.went [] result disks.old
        disks.new }
{
    let all = disks.len();
    let images = images_among(all);
    let files = read_files(alloc, disks, 0, 2 + images)?;
    let judged = match judge_rounds(alloc, files) {
        Ok(judged) => judged,
        Err(NoMemory) => return Err(Stop::Memory),
    };
    let after = read_files(alloc, disks, 2 + images, all)?;
    Ok(judged.seen_with(after.as_slice()))
}

/// What is to be said of the run in these files before the images after it are looked at: the script, the report, and the
/// images before.
fn judge_rounds(alloc: Global, files: Vec<Bytes>) -> Result<Judged, NoMemory>
    requires some { 2 ≤ length files.items }
    requires may { MayBeAudited (case_of files.items (drop 2 files.items)) }
    ensures { IfOk result (λ judged. (after : Images) → IsJudgedAs (case_of files.items after) judged) }
{
    let mut files = files;
    let before = files.split_off(2)?;
    audit_rounds(alloc, files[0].as_slice(), files[1].as_slice(), before)
}
