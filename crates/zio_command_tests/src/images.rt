//! The images of a command are fetched together and given back together.

ghost use Rattle.std.specs.Prelude.{◌≡◌, ◌≢◌, ℕ, List as Seq, None, IfOk, OnOk};
ghost use Rattle.zio_outside.specs.MemoryShelf.{out_of, shelf_slot};

use crate::words::words_of;
use std::alloc::Global;
use std::process::Abort;
use std::test::Fail;
use zio_command::{Command, ImagesFault, fetch_images, give_back_images, read_words};
use zio_outside::{MemDisk, MemShelf};
use zio_types::{List, Text};

/// Puts a disk of zeros that never fails on the shelf.
fn put_zeros(alloc: Global, shelf: &mut MemShelf, name: &str, len: usize) -> Result<(), Fail>
    requires free { shelf_slot shelf.old name.now ≡ None }
    requires home { (other : Seq ℕ) → ¬ out_of (shelf_slot shelf.old) other }
    ensures home { OnOk result ((other : Seq ℕ) → ¬ out_of (shelf_slot shelf.new) other) }
    ensures others { OnOk result ((other : Seq ℕ) → other ≢ name.now →
        shelf_slot shelf.new other ≡ shelf_slot shelf.old other) }
{
    let image = List::from_vec(vec![in alloc; 0; len]?);
    let name = Text::from_string(String::from_str(alloc, name)?);
    match shelf.put(name, MemDisk::new(image, List::new(alloc))) {
        Ok(()) => Ok(()),
        Err(_) => Err(Fail::from("no memory")),
    }
}

/// A shelf of disks `a` and `b` of these lengths, where these fetches fail.
fn shelf_of_two(alloc: Global, a: usize, b: usize, fails: &[u64]) -> Result<MemShelf, Fail>
    ensures { IfOk result (λ shelf. (name : Seq ℕ) → ¬ out_of (shelf_slot shelf) name) }
{
    let mut calls = List::new(alloc);
    calls.extend_from_slice(fails)?;
    let mut shelf = MemShelf::new(alloc, calls);
    put_zeros(alloc, &mut shelf, "a", a)?;
    put_zeros(alloc, &mut shelf, "b", b)?;
    Ok(shelf)
}

/// Fetches `a` and `b` and gives them back, or tells why they were not fetched.
fn trip(alloc: Global, shelf: &mut MemShelf) -> Result<Option<ImagesFault>, Fail>
    requires home { (name : Seq ℕ) → ¬ out_of (shelf_slot shelf.old) name }
{
    let words = words_of(alloc, &["run", "a", "b"])?;
    let Ok(Command::Run { images, .. }) = read_words(alloc, true, words.as_slice()) else {
        return Err(Fail::from("no command"));
    };
    match fetch_images(alloc, images.as_slice(), shelf) {
        Ok(disks) => {
            give_back_images(disks, shelf);
            Ok(None)
        }
        Err(fault) => Ok(Some(fault)),
    }
}

#[test]
fn all_images_come_home(rt: HostRuntime) -> Result<(), Fail> {
    let alloc = rt.alloc();
    for (len, fails, fault) in [
        (66048, &[] as &[u64], None),
        (66048, &[0], Some(ImagesFault::Failed(0))),
        (66048, &[1], Some(ImagesFault::Failed(1))),
        (512, &[], Some(ImagesFault::Size(1))),
    ] {
        let mut shelf = shelf_of_two(alloc, 65536, len, fails)?;
        assert_eq!(rt; trip(alloc, &mut shelf)?, fault);
        for (name, len) in [("a", 65536), ("b", len)] {
            assert_eq!(rt; shelf.disk(name).map(|disk| disk.image().len()), Some(len));
        }
    }
    Ok(())
}
