ghost use Rattle.std.specs.Prelude.{◌≡◌, ◌≤◌, IfOk, length};

use std::alloc::Global;
use std::test::Fail;
use zio_audit::{Seen, Verdict, audit, audit_seen};
use zio_types::{Bytes, List, NoMemory};

const SCRIPT: &[u8] = b"top 0\n1 write x sha256 1 sync fill 41 512\ngo\n2 read x sync\ngo\n";

/// The report of a run that stored the block in the image's first sector.
const REPORT: &[u8] =
    b"pool 1 1\nround 1 batch 1 point 0\n1 write x ok 512\ntake 1 0 - body 512 1 0:0\norder 1\nround 2 batch 2 point 0\n2 read x ok 512 20a0a0a080:83878787040:16439b9b85580:2d92628254f020\norder 2\nend 0\n";

/// The same but for the sector that it tells.
const ELSEWHERE: &[u8] =
    b"pool 1 1\nround 1 batch 1 point 0\n1 write x ok 512\ntake 1 0 - body 512 1 0:1\norder 1\nround 2 batch 2 point 0\n2 read x ok 512 20a0a0a080:83878787040:16439b9b85580:2d92628254f020\norder 2\nend 0\n";

/// The same without the completion of the write.
const UNORDERED: &[u8] =
    b"pool 1 1\nround 1 batch 1 point 0\n1 write x ok 512\ntake 1 0 - body 512 1 0:0\nround 2 batch 2 point 0\n2 read x ok 512 20a0a0a080:83878787040:16439b9b85580:2d92628254f020\norder 2\nend 0\n";

/// The same without the entry of the write.
const UNTAKEN: &[u8] =
    b"pool 1 1\nround 1 batch 1 point 0\n1 write x ok 512\norder 1\nround 2 batch 2 point 0\n2 read x ok 512 20a0a0a080:83878787040:16439b9b85580:2d92628254f020\norder 2\nend 0\n";

/// The same with another ending.
const UNENDED: &[u8] =
    b"pool 1 1\nround 1 batch 1 point 0\n1 write x ok 512\ntake 1 0 - body 512 1 0:0\norder 1\nround 2 batch 2 point 0\n2 read x ok 512 20a0a0a080:83878787040:16439b9b85580:2d92628254f020\norder 2\nend 9\n";

const ZEROS: [u8; 65024] = [0; 65024];

/// An image of 64 KiB, its first sector full of this byte.
fn image(alloc: Global, byte: u8) -> Result<Bytes, NoMemory>
    ensures { IfOk result (λ image. length image ≡ 65536) }
{
    let mut image = List::new(alloc);
    image.extend_from_slice(&[byte; 512])?;
    image.extend_from_slice(&ZEROS)?;
    Ok(image)
}

/// What the audit says of a run over an image of zeros that left one with the block in its first sector.
fn verdict(alloc: Global, script: &[u8], report: &[u8]) -> Result<Verdict, NoMemory>
    requires script { length script.now ≤ 1024 }
    requires report { length report.now ≤ 1024 }
{
    let before = [image(alloc, 0)?];
    let after = [image(alloc, 0x41)?];
    audit(alloc, script, report, &before, &after)
}

#[test]
fn a_true_report_is_a_yes(rt: HostRuntime) -> Result<(), Fail> {
    assert_eq!(rt; verdict(rt.alloc(), SCRIPT, REPORT)?, Verdict::Yes);
    Ok(())
}

#[test]
fn the_first_reason_is_told(rt: HostRuntime) -> Result<(), Fail> {
    let alloc = rt.alloc();
    assert_eq!(rt; verdict(alloc, b"top 1\n", REPORT)?, Verdict::No { why: 1 });
    assert_eq!(rt;
        verdict(alloc, SCRIPT, b"order 1\n")?,
        Verdict::No { why: 2 }
    );
    assert_eq!(rt; verdict(alloc, SCRIPT, UNTAKEN)?, Verdict::No { why: 3 });
    assert_eq!(rt; verdict(alloc, SCRIPT, UNORDERED)?, Verdict::No { why: 4 });
    assert_eq!(rt; verdict(alloc, SCRIPT, UNENDED)?, Verdict::No { why: 5 });
    assert_eq!(rt; verdict(alloc, SCRIPT, ELSEWHERE)?, Verdict::No { why: 6 });
    Ok(())
}

/// Where the first reason was seen to say no of the same run.
fn seen(alloc: Global, script: &[u8], report: &[u8]) -> Result<Option<Seen>, NoMemory>
    requires script { length script.now ≤ 1024 }
    requires report { length report.now ≤ 1024 }
{
    let mut before = Vec::new(alloc);
    before.push(image(alloc, 0)?)?;
    let after = [image(alloc, 0x41)?];
    audit_seen(alloc, script, report, before, &after)
}

#[test]
fn it_is_told_where_the_reason_was_seen(rt: HostRuntime) -> Result<(), Fail> {
    let alloc = rt.alloc();
    assert_eq!(rt; seen(alloc, SCRIPT, REPORT)?, None);
    assert_eq!(rt;
        seen(alloc, b"top 0\nhello\n", REPORT)?,
        Some(Seen::Script { line: 2 })
    );
    assert_eq!(rt;
        seen(alloc, b"top 1\n", REPORT)?,
        Some(Seen::Leaf { leaf: 1 })
    );
    assert_eq!(rt;
        seen(alloc, SCRIPT, b"pool 1 1\norder 1\n")?,
        Some(Seen::Lines { line: 2 })
    );
    assert_eq!(rt;
        seen(alloc, SCRIPT, UNTAKEN)?,
        Some(Seen::Places { round: 1 })
    );
    assert_eq!(rt;
        seen(alloc, SCRIPT, UNORDERED)?,
        Some(Seen::Completions { round: 1 })
    );
    assert_eq!(rt; seen(alloc, SCRIPT, UNENDED)?, Some(Seen::Text { line: 9 }));
    assert_eq!(rt;
        seen(alloc, SCRIPT, ELSEWHERE)?,
        Some(Seen::Images { image: 0, byte: 0 })
    );
    Ok(())
}
