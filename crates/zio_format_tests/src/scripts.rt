//! The reader on texts whose answers were worked out by hand, and the generator's first value.

use std::alloc::Global;
use std::process::Abort;
use std::test::Fail;
use zio_script::{
    Body, Item, SCRIPT_LEN_MAX, Script, ScriptError, ScriptFault, body_bytes, read_script,
};

/// Texts, each with its first faulty line and the least why.
const FAULTY: &[(&[u8], u32, u32)] = &[
    // no shape
    (b"hello\n", 1, 1),
    (b"top 0\n1 wri", 2, 1),
    (b"# a pool\ntop 0\n\t# no request\n1 wri\n", 4, 1),
    (b"top 0\ngo now\n", 2, 1),
    (b"top 0\n1 read x\ngo\n", 2, 1),
    (b"top 0\n1 read x sync more\ngo\n", 2, 1),
    (b"top 0\n1 write x md5 1 sync fill 00 1\ngo\n", 2, 1),
    (b"top 0\n1 write x off 1 scrub fill 00 1\ngo\n", 2, 1),
    (b"top\n", 1, 1),
    (b"top 0 1 2 3 4\n", 1, 1),
    (b"top 0\nfault 0 read 0 1 0 1 eio second\n", 2, 1),
    (b"top 0\n1 claim x 00 must\n", 2, 1),
    (b"top 0\n1 null under 1 must now\n", 2, 1),
    // no number, or no hexadecimal digits
    (b"top 0\n01 read x sync\ngo\n", 2, 2),
    (b"top 0\n+1 read x sync\ngo\n", 2, 2),
    (b"top 0\ngo read x sync\ngo\n", 2, 2),
    (b"top 0\n18446744073709551616 read x sync\n", 2, 2),
    (b"top 0\n1 write x off 1 sync data 0\ngo\n", 2, 2),
    (b"top 0\n1 write x off 1 sync data 0g\ngo\n", 2, 2),
    (b"top 0\n1 write x off 1 sync fill 0 1\ngo\n", 2, 2),
    (b"top 0\n1 write x off 1 sync fill 00 0600\ngo\n", 2, 2),
    (
        b"top 0\n1 write x off 1 sync seq 18446744073709551616 1\ngo\n",
        2,
        2,
    ),
    (b"top sector 512\n", 1, 2),
    (b"top 0\n1 null under p\n", 2, 2),
    (b"top 0\n1 claim x 0\n", 2, 2),
    // out of range, or too much
    (b"top 0\n0 read x sync\ngo\n", 2, 3),
    (b"top 0\n65536 read x sync\ngo\n", 2, 3),
    (b"top 0\n18446744073709551615 read X sync\ngo\n", 2, 3),
    (b"top 0\n1 write x off 1 sync fill 00 0\ngo\n", 2, 3),
    (b"top 0\n2 read x sync\n0 read x sync\ngo\n", 3, 3),
    (b"top 0 sector 768\n", 1, 3),
    (b"top 16\n", 1, 3),
    (b"top 0\nfault 0 read 0 1 1 1 eio\n", 2, 3),
    (b"top 0\n1 claim x 00\ngo\n", 2, 3),
    (
        b"top 0\n1 write x fletcher4 1 async fill 41 1048577\ngo\n",
        2,
        3,
    ),
    (b"top 0\n1 write x off 4 sync fill 41 1\ngo\n", 2, 3),
    (
        b"top 0\n1 write p off 1 sync fill 00 1048576\n2 write c off 1 sync fill 00 1 under 1\ngo\n",
        3,
        3,
    ),
    // out of order
    (b"1 read x sync\ngo\n", 1, 4),
    (b"top 0\ngo\n", 2, 4),
    (b"top 0\n1 read x sync\ntop 0\n", 3, 4),
    (b"top 0\n2 read x sync\ngo\n2 read x sync\ngo\n", 4, 4),
    (b"top 0\n2 read x sync\n1 read x sync\ngo\n", 3, 4),
    (b"top 0\n1 read x sync", 3, 4),
    (b"top 0\n1 read x sync\n", 3, 4),
    (b"top 0\nfailmode wait\n", 2, 4),
    (b"failmode wait\nfailmode wait\n", 2, 4),
    (b"fault 0 read 0 1 0 1 eio\n", 1, 4),
    (b"top 0\n1 null", 3, 4),
    (b"top 0\n1 null\nclear\n", 3, 4),
    // no name
    (b"top 0\n1 read X sync\nclear\n", 2, 5),
    (b"top 0\n1 read abcdefghijklmnopq sync\ngo\n", 2, 5),
    (b"top 0\n1 write a-b off 1 sync fill 00 1\ngo\n", 2, 5),
    (b"top 0\n1 free X\ngo\n", 2, 5),
    // a name that may not stand twice
    (
        b"top 0\n1 read x sync\n2 read x sync\n3 write x off 1 sync fill 00 1\n",
        4,
        6,
    ),
    (
        b"top 0\n1 write x off 1 sync fill 00 1\n2 read y sync\n3 read x sync\ngo\n",
        4,
        6,
    ),
    (
        b"top 0\n1 read x sync\ngo\n2 read y sync\n\n3 write y off 1 sync seq 1 1\n",
        6,
        6,
    ),
    (b"top 0\n1 read x sync\n2 free x\ngo\n", 3, 6),
    (
        b"top 0 1\nfault 0 write 0 65536 0 1 eio first\n1 write x sha256 1 sync fill 41 512\ngo\nclear\n2 read x sync\n3 read x sync\ngo\n",
        7,
        6,
    ),
    // may fail where it may not
    (
        b"top 0\n1 null must\n2 read x sync under 1 canfail\ngo\n",
        3,
        7,
    ),
    (b"top 0\n1 free x\n2 null under 1 canfail\ngo\n", 3, 7),
    // where it may not stand
    (b"top 0\n1 free x\n2 null under 1\ngo\n", 3, 8),
    (b"top 0\n1 null under 2\ngo\n", 2, 8),
    (
        b"top 0\n1 write p off 1 sync fill 00 512\n2 read a sync under 1\ngo\n",
        3,
        8,
    ),
    // no top, a leaf twice, or a leaf in no top
    (b"", 1, 9),
    (b"# nothing\n \n", 3, 9),
    (b"top 0\ntop 0\n", 2, 9),
    (b"top 0 0\n", 1, 9),
    (b"top 0\ntop 1 0\n", 2, 9),
    (b"top 0\nfault 1 read 0 1 0 1 eio\n", 2, 9),
];

/// A claim's pointer: 256 digits, all zeros.
const POINTER: &str = "0000000000000000000000000000000000000000000000000000000000000000\
0000000000000000000000000000000000000000000000000000000000000000\
0000000000000000000000000000000000000000000000000000000000000000\
0000000000000000000000000000000000000000000000000000000000000000";

/// The text has this fault.
fn refuses(rt: &impl Abort, alloc: Global, text: &[u8], line: u32, why: u32) -> Result<(), Fail> {
    let Err(ScriptError::Fault(fault)) = read_script(alloc, text) else {
        return Err(Fail::from("a script, or no memory"));
    };
    assert_eq!(rt; fault, ScriptFault { line, why });
    Ok(())
}

#[test]
fn the_first_faulty_line_is_named_by_its_least_why(rt: HostRuntime) -> Result<(), Fail> {
    for (text, line, why) in FAULTY {
        refuses(&rt, rt.alloc(), text, *line, *why)?;
    }
    Ok(())
}

#[test]
fn what_is_too_much_is_refused(rt: HostRuntime) -> Result<(), Fail> {
    let alloc = rt.alloc();
    let long = vec![in alloc; b'#'; SCRIPT_LEN_MAX + 1]?;
    refuses(&rt, alloc, long.as_slice(), 0, 3)?;
    let mut batch = String::from_str(alloc, "top 0\n")?;
    for i in 1..1026u32 {
        let line = format!(in alloc; "{i} read b{i} sync\n")?;
        batch.push_str(line.as_str())?;
    }
    refuses(&rt, alloc, batch.as_bytes(), 1026, 3)?;
    let mut deep = String::from_str(alloc, "top 0\n1 null\n")?;
    for i in 2..18u32 {
        let line = format!(in alloc; "{i} null under {}\n", i - 1)?;
        deep.push_str(line.as_str())?;
    }
    refuses(&rt, alloc, deep.as_bytes(), 18, 8)?;
    let mut full = String::from_str(alloc, "top 0\n1 null\n")?;
    for i in 2..258u32 {
        let line = format!(in alloc; "{i} null under 1\n")?;
        full.push_str(line.as_str())?;
    }
    refuses(&rt, alloc, full.as_bytes(), 258, 8)?;
    let mut large = String::from_str(alloc, "top 0\n")?;
    for i in 1..18u32 {
        let line = format!(in alloc; "{i} write b{i} off 1 sync fill 00 1048576\n")?;
        large.push_str(line.as_str())?;
    }
    refuses(&rt, alloc, large.as_bytes(), 18, 3)
}

#[test]
fn a_claim_stands_alone(rt: HostRuntime) -> Result<(), Fail> {
    let alloc = rt.alloc();
    let beside = format!(in alloc; "top 0\n1 null\n2 claim x {POINTER}\ngo\n")?;
    refuses(&rt, alloc, beside.as_bytes(), 3, 8)?;
    let behind = format!(in alloc; "top 0\n1 claim x {POINTER}\n2 null\ngo\n")?;
    refuses(&rt, alloc, behind.as_bytes(), 3, 8)
}

/// What the items are, in a letter each.
fn letters(alloc: Global, script: &Script) -> Result<String, Fail> {
    let mut letters = String::new(alloc);
    for item in script.items.as_slice() {
        letters.push(match item {
            Item::Request(_) => 'r',
            Item::Go => 'g',
            Item::Clear => 'c',
        })?;
    }
    Ok(letters)
}

#[test]
fn scripts_are_read(rt: HostRuntime) -> Result<(), Fail> {
    let alloc = rt.alloc();
    let claim = format!(in alloc; "top 0 1 sector 4096\n1 claim x {POINTER}\ngo\n")?;
    for (text, items) in [
        (claim.as_bytes(), "rg"),
        (b"top 0" as &[u8], ""),
        (b"\n#\ntop 0\n", ""),
        (b"\t top\r0 \r\n#x\n1\tread  x\tsync\n\n go \r", "rg"),
        (
            b"top 0\n1 write a off 1 sync data aF\n2 read b scrub\ngo\n3 read a async\ngo\n",
            "rrgrg",
        ),
        (
            b"top 0\n7 write abcdefghijklm_09 sha256 1 async seq 18446744073709551615 512\ngo\n",
            "rg",
        ),
        (
            b"top 0\n1 read x sync\n2 read y sync\n3 read x async\n4 read x scrub\ngo\n",
            "rrrrg",
        ),
        (
            b"top 0\n65535 write x fletcher4 1 sync fill aF 512\ngo\n",
            "rg",
        ),
        (
            b"failmode panic\ntop 0\ntop 1 2 3 4\nfault 4 any 0 268435456 0 65535 flip first\n1 free a\ngo\nclear\nclear\n",
            "rgcc",
        ),
        (
            b"top 0\n1 null canfail\n2 read x sync under 1 must\ngo\n",
            "rrg",
        ),
        (
            b"top 0 1\nfault 0 write 0 65536 0 1 eio\n1 write x sha256 2 sync fill 41 512\ngo\nclear\n2 read x sync\n3 read x sync\ngo\n",
            "rgcrrg",
        ),
        (
            b"top 0\n1 write p off 1 sync fill 00 512\n2 write a sha256 1 sync fill 41 512 under 1\n3 write b fletcher4 3 sync data 4A4b under 1\ngo\n4 read p sync\ngo\n",
            "rrrgrg",
        ),
    ] {
        match read_script(alloc, text) {
            Ok(script) => assert_eq!(rt; letters(alloc, &script)?.as_str(), items),
            Err(_) => return Err(Fail::from("a fault")),
        }
    }
    Ok(())
}

#[test]
fn the_generator_gives_the_bytes_of_the_format(rt: HostRuntime) -> Result<(), Fail> {
    let bytes = body_bytes(rt.alloc(), &Body::Seq { seed: 0, len: 8 })?;
    assert_eq!(rt;
        bytes.as_slice(),
        [0x4f, 0x81, 0x67, 0xf7, 0x7e, 0x7b, 0x05, 0x14].as_slice()
    );
    Ok(())
}
