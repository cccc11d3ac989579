//! Each call that allocates, where memory is granted.
use std::test::Fail;
use zio_types::{Bytes, List, Text};

#[test]
fn a_list_grows_at_its_end_and_is_used_up_from_its_front(rt: HostRuntime) -> Result<(), Fail> {
    for (first, more, all) in [
        (&[][..], &[][..], &[][..]),
        (&[7][..], &[][..], &[7][..]),
        (&[][..], &[8, 9][..], &[8, 9][..]),
        (&[1, 2][..], &[2, 3][..], &[1, 2, 2, 3][..]),
    ] {
        let mut list = Bytes::new(rt.alloc());
        for item in first {
            list.push(*item)?;
        }
        list.extend_from_slice(more)?;
        assert_eq!(rt; list.as_slice(), all);
        let mut front = Vec::new(rt.alloc());
        for item in list.into_rest() {
            front.push(item)?;
        }
        assert_eq!(rt; front.as_slice(), all);
    }
    Ok(())
}

#[test]
fn a_text_grows_at_its_end(rt: HostRuntime) -> Result<(), Fail> {
    for (first, more, all) in [
        ("", "", ""),
        ("gang", "", "gang"),
        ("", "leaf", "leaf"),
        ("tête", " à tête", "tête à tête"),
    ] {
        let mut text = Text::new(rt.alloc());
        text.push_str(first)?;
        text.push_str(more)?;
        assert_eq!(rt; text.as_str(), all);
        assert_eq!(rt; text.into_string().as_str(), all);
    }
    Ok(())
}

#[test]
fn a_list_of_owned_items_grows(rt: HostRuntime) -> Result<(), Fail> {
    let mut names = List::<Text>::new(rt.alloc());
    for name in ["a", "bc"] {
        let mut text = Text::new(rt.alloc());
        text.push_str(name)?;
        names.push(text)?;
    }
    let lengths = names.as_slice();
    assert_eq!(rt; lengths.len(), 2);
    assert_eq!(rt; lengths[0].as_str(), "a");
    assert_eq!(rt; lengths[1].as_str(), "bc");
    Ok(())
}
