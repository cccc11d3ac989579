use std::test::Fail;
use zio_audit::PutIn;

/// Whether these texts of journals stand in the report where a run prints them.
fn stand(report: &[u8], journals: &[&[u8]]) -> bool {
    let mut put = PutIn::of(report);
    let mut more = put.next_round(b"");
    for journal in journals {
        if !more {
            return false;
        }
        more = put.next_round(journal);
    }
    !more && put.is_whole()
}

const ENTRY: &[u8] = b"take 1 0 - body 512 1 0:1\norder 1\n";

#[test]
fn a_journal_stands_behind_its_requests(rt: HostRuntime) -> Result<(), Fail> {
    let report =
        b"pool 1 1\nround 1 batch 1 point 0\n1 write x ok 512\ntake 1 0 - body 512 1 0:1\norder 1\nend 0\n";
    assert!(rt; stand(report, &[ENTRY]));
    assert!(rt; !stand(report, &[b"take 1 0 - body 512 1 0:1 refused\norder 1\n"]));
    assert!(rt; !stand(report, &[b"take 1 0 - body 512 1 0:1\n"]));
    assert!(rt; !stand(report, &[]));
    Ok(())
}

#[test]
fn a_journal_stands_before_a_held_batch(rt: HostRuntime) -> Result<(), Fail> {
    let held =
        b"pool 1 1\nround 1 batch 1 point 0\n1 null ok\norder 1\nheld 2\nround 2 clear point 1\nend 0\n";
    assert!(rt; stand(held, &[b"order 1\n", b""]));
    assert!(rt; !stand(held, &[b"", b"order 1\n"]));
    Ok(())
}

#[test]
fn lines_out_of_place_are_told(rt: HostRuntime) -> Result<(), Fail> {
    let early =
        b"pool 1 1\nround 1 batch 1 point 0\ntake 1 0 - body 512 1 0:1\n1 write x ok 512\norder 1\nend 0\n";
    assert!(rt; !stand(early, &[ENTRY]));
    let turned =
        b"pool 1 1\nround 1 batch 1 point 0\n1 write x ok 512\norder 1\ntake 1 0 - body 512 1 0:1\nend 0\n";
    assert!(rt; !stand(turned, &[ENTRY]));
    let late =
        b"pool 1 1\nround 1 batch 1 point 0\n1 write x ok 512\nend 0\ntake 1 0 - body 512 1 0:1\norder 1\n";
    assert!(rt; !stand(late, &[ENTRY]));
    let open =
        b"pool 1 1\nround 1 batch 1 point 0\n1 write x ok 512\ntake 1 0 - body 512 1 0:1\norder 1\nend 0";
    assert!(rt; !stand(open, &[ENTRY]));
    Ok(())
}
