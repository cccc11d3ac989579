use crate::entries::{EIGHT, found, refused};
use std::alloc::Global;
use std::test::Fail;
use zio_audit::are_lawful;
use zio_places::Space;
use zio_types::{Entry, NoMemory};

/// Whether these are lawful on an empty top of eight sectors.
fn judged(alloc: Global, entries: &[Entry]) -> Result<bool, NoMemory> {
    let mut space = Space::new(alloc, &[EIGHT])?;
    are_lawful(&mut space, &[EIGHT], entries)
}

#[test]
fn entries_stand_apart(rt: HostRuntime) -> Result<(), Fail> {
    assert!(rt; judged(rt.alloc(), &[found(1, 0, 2), found(2, 2, 2)])?);
    assert!(rt; !judged(rt.alloc(), &[found(1, 0, 2), found(2, 1, 2)])?);
    Ok(())
}

#[test]
fn an_entry_has_the_sectors_of_its_size(rt: HostRuntime) -> Result<(), Fail> {
    assert!(rt; !judged(rt.alloc(), &[found(1, 0, 1)])?);
    assert!(rt; !judged(rt.alloc(), &[found(1, 7, 2)])?);
    Ok(())
}

#[test]
fn an_entry_is_refused_where_no_run_is_free(rt: HostRuntime) -> Result<(), Fail> {
    let scattered = [found(1, 1, 2), found(2, 4, 2), found(3, 6, 2), refused(4)];
    assert!(rt; judged(rt.alloc(), &scattered)?);
    assert!(rt; !judged(rt.alloc(), &[refused(1)])?);
    Ok(())
}
