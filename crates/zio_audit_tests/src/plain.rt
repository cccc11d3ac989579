use std::test::Fail;
use zio_audit::{PlainMatcher, shows_bytes};
use zio_outside::{Failed, Sink};

// Its last line lacks its newline, which the plain text has.
const REPORT: &[u8] =
    b"pool 1 1\norder 9\nround 1 batch 1 point 0\ntake 1 0 - body 512 1 0:1\nend 0";

/// Whether the plain text of the report came in these two pieces.
fn came(first: &[u8], second: &[u8]) -> Result<bool, Failed> {
    let mut matcher = PlainMatcher::new(REPORT);
    matcher.write(first)?;
    matcher.write(second)?;
    Ok(matcher.is_whole())
}

#[test]
fn a_plain_text_comes_in_pieces(rt: HostRuntime) -> Result<(), Fail> {
    assert!(rt; came(b"pool 1 1\nround 1 batch 1 point 0\nend 0\n", b"")?);
    assert!(rt; came(b"pool 1 1\nrou", b"nd 1 batch 1 point 0\nend 0\n")?);
    assert!(rt; came(b"pool 1 1", b"\nround 1 batch 1 point 0\nend 0\n")?);
    assert!(rt; came(b"pool 1 1\nround 1 batch 1 point 0\nend 0", b"\n")?);
    Ok(())
}

#[test]
fn another_plain_text_is_told(rt: HostRuntime) -> Result<(), Fail> {
    assert!(rt; !came(b"pool 1 1\nround 1 batch 1 point 0\n", b"end 0")?);
    assert!(rt; !came(b"pool 1 1\nround 1 batch 1 point 0\nend 0\n", b"\n")?);
    assert!(rt; !came(b"pool 1 1\norder 9\n", b"round 1 batch 1 point 0\nend 0\n")?);
    assert!(rt; !came(b"pool 1 1round 1 batch 1 point 0\nend 0\n", b"")?);
    assert!(rt; !came(b"x", b"pool 1 1\nround 1 batch 1 point 0\nend 0\n")?);
    Ok(())
}

#[test]
fn a_report_of_the_journal_alone_has_no_plain_text(rt: HostRuntime) -> Result<(), Fail> {
    let mut matcher = PlainMatcher::new(b"order 1\ntake 1 0 - body 512 1 0:1\n");
    assert!(rt; matcher.is_whole());
    matcher.write(b"")?;
    assert!(rt; matcher.is_whole());
    matcher.write(b"\n")?;
    assert!(rt; !matcher.is_whole());
    Ok(())
}

#[test]
fn bytes_are_those_of_a_read(rt: HostRuntime) -> Result<(), Fail> {
    assert!(rt; shows_bytes(b"pool 1 1\n2 read x ok 2 41:41:0:0 data 4100\nend 0\n"));
    assert!(rt; !shows_bytes(b"pool 1 1\n2 read x ok 2 41:41:0:0\nend 0\n"));
    assert!(rt; !shows_bytes(b"take 1 0 - body 512 1 0:1\nend 0\n"));
    assert!(rt; !shows_bytes(b""));
    Ok(())
}
