use std::test::Fail;
use zio_course::{Admission, Awaited, Bound, answered_ends, enter_round};
use zio_script::{Item, Name, Request, Work};
use zio_types::{Completion, Errno, Journal, List, Prio};

fn block_name() -> Result<Name, Fail> {
    match Name::from_word(b"x") {
        Some(name) => Ok(name),
        None => Err(Fail::from("a name")),
    }
}

/// `1 null`, `2 read x under 1`, `3 null`, where no name is bound.
#[test]
fn a_child_answers_its_whole_tree(rt: HostRuntime) -> Result<(), Fail> {
    let alloc = rt.alloc();
    let batch = [
        Item::Request(Request {
            number: 1,
            work: Work::Null,
            under: None,
            canfail: false,
        }),
        Item::Request(Request {
            number: 2,
            work: Work::Read {
                name: block_name()?,
                prio: Prio::SyncRead,
            },
            under: Some(1),
            canfail: true,
        }),
        Item::Request(Request {
            number: 3,
            work: Work::Null,
            under: None,
            canfail: false,
        }),
    ];
    let admission = Admission::of(
        alloc,
        &batch,
        false,
        &Awaited::new(alloc),
        &Bound::new(alloc),
    )?;
    assert_eq!(rt; admission.error_of(1), Some(Errno::Noent));
    assert_eq!(rt; admission.error_of(2), Some(Errno::Noent));
    assert_eq!(rt; admission.error_of(3), None);
    let ends = answered_ends(alloc, &batch, &admission, 1)?;
    let [first, second] = ends.as_slice() else {
        return Err(Fail::from("two were answered"));
    };
    assert_eq!(rt; first.request, 2);
    assert_eq!(rt; second.request, 1);
    Ok(())
}

/// A name that a suspended request awaits keeps another read of it out, and no other block's.
#[test]
fn names_are_found(rt: HostRuntime) -> Result<(), Fail> {
    let alloc = rt.alloc();
    let name = block_name()?;
    let mut awaited = Awaited::new(alloc);
    assert!(rt; !awaited.contains(&name));
    awaited.insert(name)?;
    assert!(rt; awaited.contains(&name));
    awaited.clear();
    assert!(rt; !awaited.contains(&name));
    Ok(())
}

#[test]
fn a_round_is_counted(rt: HostRuntime) -> Result<(), Fail> {
    let alloc = rt.alloc();
    let mut journal = Journal::new(alloc);
    let mut ends = List::new(alloc);
    ends.push(Completion {
        request: 7,
        round: 1,
        error: None,
    })?;
    enter_round(alloc, &mut journal, List::new(alloc), ends)?;
    assert_eq!(rt; journal.rounds, 1);
    assert_eq!(rt; journal.completions.len(), 1);
    Ok(())
}
