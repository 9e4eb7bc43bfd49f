//! Each method of lists and texts once, with ample memory.
use fx_lists::{List, Text};
use std::alloc::Global;
use std::test::Fail;

#[test]
fn list_grows(rt: HostRuntime) -> Result<(), Fail> {
    let mut list = List::from_slice(rt.alloc(), &[5u8, 6])?;
    list.push(7)?;
    list.set(0, 4);
    assert_eq!(rt; list.as_slice(), [4u8, 6, 7].as_slice());
    assert_eq!(rt; list.len(), 3);
    assert_eq!(rt; list.get(1).copied(), Some(6));
    assert_eq!(rt; list.get(3).copied(), None);
    Ok(())
}

#[test]
fn list_shrinks(rt: HostRuntime) -> Result<(), Fail> {
    let mut list = List::from_slice(rt.alloc(), &[5u8, 6])?;
    assert_eq!(rt; list.pop(), Some(6));
    assert_eq!(rt; list.pop(), Some(5));
    assert_eq!(rt; list.pop(), None);
    assert!(rt; list.is_empty(), "after the last pop");
    assert!(rt; List::<u8>::new(rt.alloc()).is_empty(), "a new list");
    Ok(())
}

#[test]
fn list_is_copied(rt: HostRuntime) -> Result<(), Fail> {
    let list = List::from_slice(rt.alloc(), &[5u8, 6])?;
    let copy = list.clone()?;
    assert!(rt; copy == list, "a copy");
    let items = copy.into_vec();
    assert_eq!(rt; List::from_vec(items).as_slice(), [5u8, 6].as_slice());
    Ok(())
}

#[test]
fn text_grows(rt: HostRuntime) -> Result<(), Fail> {
    let mut text = Text::from_bytes(rt.alloc(), b"ab")?;
    text.push(b'c')?;
    text.append(b"de")?;
    assert_eq!(rt; text.as_slice(), b"abcde".as_slice());
    assert_eq!(rt; text.len(), 5);
    assert!(rt; Text::new(rt.alloc()).is_empty(), "a new text");
    Ok(())
}

#[test]
fn text_is_copied(rt: HostRuntime) -> Result<(), Fail> {
    let text = Text::from_bytes(rt.alloc(), b"ab")?;
    let copy = text.clone()?;
    assert!(rt; copy == text, "a copy");
    let bytes = copy.into_vec();
    assert_eq!(rt; Text::from_vec(bytes).as_slice(), b"ab".as_slice());
    Ok(())
}
