ghost use Rattle.std.specs.Prelude.{◌≡◌, IfOk};
ghost use Rattle.zio_report.specs.Lines.{AreWhole, IsWhole};

use std::alloc::Global;
use std::process::Abort;
use std::test::Fail;
use zio_gang::Ending;
use zio_report::{LineResult, ReportLine, RoundHead, Show, end_line, held_line, pool_line, render};
use zio_script::Name;
use zio_types::{Completion, Entry, Errno, Key, Kind, List, Path, Place, Role};

const PLAIN: Show = Show::Report {
    journal: false,
    bytes: false,
};

const WITH_JOURNAL: Show = Show::Report {
    journal: true,
    bytes: false,
};

const WITH_BYTES: Show = Show::Report {
    journal: false,
    bytes: true,
};

const FIRST: RoundHead = RoundHead {
    round: 1,
    batch: Some(1),
    point: 0,
};

const SECOND: RoundHead = RoundHead {
    round: 2,
    batch: Some(2),
    point: 0,
};

const CLEARED: RoundHead = RoundHead {
    round: 2,
    batch: None,
    point: 1,
};

const ROOT: Path = Path {
    len: 0,
    steps: [0; 8],
};

const MEMBER: Path = Path {
    len: 1,
    steps: [0; 8],
};

const MEMBER_OF_A_MEMBER: Path = Path {
    len: 2,
    steps: [0, 1, 0, 0, 0, 0, 0, 0],
};

const DEEPEST: Path = Path {
    len: 8,
    steps: [0, 1, 2, 0, 1, 2, 0, 1],
};

const NO_PLACE: Place = Place {
    top: 0,
    sector: 0,
    sectors: 0,
};

/// A round, and its text.
#[derive(Clone, Copy)]
struct Case<'a> {
    show: Show,
    head: RoundHead,
    requests: &'a [ReportLine],
    entries: &'a [Entry],
    completions: &'a [Completion],
    text: &'a str,
}

fn check(rt: &impl Abort, alloc: Global, case: &Case<'_>) -> Result<(), Fail>
    requires { AreWhole case.now.requests.now }
{
    let text = render(
        alloc,
        &case.show,
        &case.head,
        case.requests,
        case.entries,
        case.completions,
    )?;
    assert_eq!(rt; text.as_str(), case.text);
    Ok(())
}

fn named(letter: u8) -> Option<Name> {
    Name::from_word(&[letter])
}

fn line(number: u32, kind: Kind, name: u8, outcome: LineResult) -> ReportLine
    ensures { result.result ≡ outcome }
{
    ReportLine {
        number,
        kind,
        name: named(name),
        result: outcome,
    }
}

/// A read of 512 times this byte.
fn read_of(alloc: Global, byte: u8) -> Result<LineResult, Fail>
    ensures { IfOk result (λ r. IsWhole r) }
{
    Ok(LineResult::Bytes(List::from_vec(vec![in alloc; byte; 512]?)))
}

fn done(request: u32) -> Completion {
    Completion {
        request,
        round: 1,
        error: None,
    }
}

fn key(request: u32, path: Path, role: Role) -> Key {
    Key {
        request,
        round: 1,
        attempt: 0,
        path,
        role,
    }
}

fn at(sector: u64) -> Place {
    Place {
        top: 0,
        sector,
        sectors: 1,
    }
}

/// An ask for one copy, of which none was found.
fn none_found(request: u32, path: Path, size: u32) -> Entry {
    Entry {
        key: key(request, path, Role::Body),
        size,
        copies: 1,
        found: 0,
        places: [NO_PLACE; 3],
    }
}

fn one_found(request: u32, path: Path, copies: u32, sector: u64) -> Entry {
    Entry {
        key: key(request, path, Role::Body),
        size: 512,
        copies,
        found: 1,
        places: [at(sector), NO_PLACE, NO_PLACE],
    }
}

fn header(request: u32, path: Path, sectors: [u64; 2]) -> Entry {
    let [first, second] = sectors;
    Entry {
        key: key(request, path, Role::Head),
        size: 512,
        copies: 2,
        found: 2,
        places: [at(first), at(second), NO_PLACE],
    }
}

#[test]
fn write_then_read(rt: HostRuntime) -> Result<(), Fail> {
    let alloc = rt.alloc();
    let write = Case {
        show: PLAIN,
        head: FIRST,
        requests: &[line(1, Kind::Write, b'x', LineResult::Sized(512))],
        entries: &[one_found(1, ROOT, 1, 37)],
        completions: &[done(1)],
        text: "round 1 batch 1 point 0\n\
               1 write x ok 512\n",
    };
    check(&rt, alloc, &write)?;
    let read = Case {
        show: PLAIN,
        head: SECOND,
        requests: &[line(2, Kind::Read, b'x', read_of(alloc, 0x41)?)],
        entries: &[],
        completions: &[done(2)],
        text: "round 2 batch 2 point 0\n\
               2 read x ok 512 20a0a0a080:83878787040:16439b9b85580:2d92628254f020\n",
    };
    check(&rt, alloc, &read)
}

#[test]
fn each_read_has_its_own_bytes(rt: HostRuntime) -> Result<(), Fail> {
    let alloc = rt.alloc();
    let requests = [
        line(2, Kind::Read, b'x', read_of(alloc, 0x41)?),
        line(3, Kind::Read, b'y', read_of(alloc, 0)?),
    ];
    let mut text = String::from_str(alloc, "round 2 batch 2 point 0\n2 read x ok 512 ")?;
    text.push_str("20a0a0a080:83878787040:16439b9b85580:2d92628254f020 data ")?;
    for _ in 0..512 {
        text.push_str("41")?;
    }
    text.push_str("\n3 read y ok 512 0:0:0:0 data ")?;
    for _ in 0..512 {
        text.push_str("00")?;
    }
    text.push_str("\n")?;
    let reads = Case {
        show: WITH_BYTES,
        head: SECOND,
        requests: &requests,
        entries: &[],
        completions: &[done(2), done(3)],
        text: text.as_str(),
    };
    check(&rt, alloc, &reads)
}

#[test]
fn each_result_has_its_word(rt: HostRuntime) -> Result<(), Fail> {
    let requests = [
        line(1, Kind::Write, b'p', LineResult::Suspended),
        ReportLine {
            number: 2,
            kind: Kind::Null,
            name: None,
            result: LineResult::Done,
        },
        line(3, Kind::Free, b'a', LineResult::Done),
        line(4, Kind::Claim, b'b', LineResult::Done),
        line(5, Kind::Write, b'c', LineResult::Sized(66048)),
        line(6, Kind::Read, b'd', LineResult::Failed(Errno::Nxio)),
        line(7, Kind::Claim, b'e', LineResult::Failed(Errno::Cksum)),
        line(8, Kind::Read, b'f', LineResult::Failed(Errno::Io)),
        line(9, Kind::Write, b'g', LineResult::Failed(Errno::Nospc)),
        line(10, Kind::Claim, b'h', LineResult::Failed(Errno::Inval)),
        line(11, Kind::Write, b'i', LineResult::Failed(Errno::Exist)),
        line(12, Kind::Read, b'j', LineResult::Failed(Errno::Noent)),
    ];
    let case = Case {
        show: PLAIN,
        head: CLEARED,
        requests: &requests,
        entries: &[],
        completions: &[],
        text: "round 2 clear point 1\n\
               1 write p suspended\n\
               2 null ok\n\
               3 free a ok\n\
               4 claim b ok\n\
               5 write c ok 66048\n\
               6 read d ENXIO\n\
               7 claim e ECKSUM\n\
               8 read f EIO\n\
               9 write g ENOSPC\n\
               10 claim h EINVAL\n\
               11 write i EEXIST\n\
               12 read j ENOENT\n",
    };
    check(&rt, rt.alloc(), &case)
}

#[test]
fn write_then_read_with_journal(rt: HostRuntime) -> Result<(), Fail> {
    let case = Case {
        show: WITH_JOURNAL,
        head: FIRST,
        requests: &[line(1, Kind::Write, b'x', LineResult::Sized(512))],
        entries: &[one_found(1, ROOT, 1, 37)],
        completions: &[done(1)],
        text: "round 1 batch 1 point 0\n\
               1 write x ok 512\n\
               take 1 0 - body 512 1 0:37\n\
               order 1\n",
    };
    check(&rt, rt.alloc(), &case)
}

// The first asks of a gang inside a gang, and others that aren't its own.
#[test]
fn asks_have_their_paths_and_places(rt: HostRuntime) -> Result<(), Fail> {
    let entries = [
        none_found(3, ROOT, 2048),
        header(3, ROOT, [1, 3]),
        none_found(3, MEMBER, 1024),
        header(3, MEMBER, [5, 7]),
        one_found(3, MEMBER_OF_A_MEMBER, 1, 9),
        one_found(3, DEEPEST, 2, 11),
    ];
    let case = Case {
        show: WITH_JOURNAL,
        head: FIRST,
        requests: &[line(3, Kind::Write, b'x', LineResult::Suspended)],
        entries: &entries,
        completions: &[],
        text: "round 1 batch 1 point 0\n\
               3 write x suspended\n\
               take 3 0 - body 2048 1 refused\n\
               take 3 0 - head 512 2 0:1 0:3\n\
               take 3 0 0 body 1024 1 refused\n\
               take 3 0 0 head 512 2 0:5 0:7\n\
               take 3 0 0.1 body 512 1 0:9\n\
               take 3 0 0.1.2.0.1.2.0.1 body 512 2 0:11 refused\n",
    };
    check(&rt, rt.alloc(), &case)
}

#[test]
fn order_is_that_of_completion(rt: HostRuntime) -> Result<(), Fail> {
    let case = Case {
        show: WITH_JOURNAL,
        head: FIRST,
        requests: &[],
        entries: &[],
        completions: &[done(3), done(2), done(1)],
        text: "round 1 batch 1 point 0\n\
               order 3 2 1\n",
    };
    check(&rt, rt.alloc(), &case)
}

#[test]
fn summary_shows_no_round(rt: HostRuntime) -> Result<(), Fail> {
    let case = Case {
        show: Show::Summary,
        head: FIRST,
        requests: &[line(1, Kind::Write, b'x', LineResult::Sized(512))],
        entries: &[one_found(1, ROOT, 1, 37)],
        completions: &[done(1)],
        text: "",
    };
    check(&rt, rt.alloc(), &case)
}

#[test]
fn lines_between_rounds(rt: HostRuntime) -> Result<(), Fail> {
    let alloc = rt.alloc();
    assert_eq!(rt; pool_line(alloc, 1, 2)?.as_str(), "pool 1 2\n");
    assert_eq!(rt; held_line(alloc, 2)?.as_str(), "held 2\n");
    assert_eq!(rt; end_line(Ending::Complete), "end 0\n");
    assert_eq!(rt; end_line(Ending::Panic), "end 4\n");
    assert_eq!(rt; end_line(Ending::Left), "end 9\n");
    Ok(())
}
