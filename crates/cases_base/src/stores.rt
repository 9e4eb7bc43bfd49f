//! What a store answers: of files in memory, and of real files.
use crate::outside::{NEVER, store};
use fx_base::{Fetched, FileStore, Kept, Role, Store};
use fx_lists::Text;
use std::alloc::Global;
use std::test::Fail;

fn is_got(fetched: &Fetched, want: &[u8]) -> bool {
    match fetched {
        Fetched::Got(text) => text.as_slice() == want,
        Fetched::Absent | Fetched::TooLong | Fetched::Failed | Fetched::Memory => false,
    }
}

#[test]
fn held_file_is_fetched_up_to_its_limit(rt: HostRuntime) -> Result<(), Fail> {
    let alloc = rt.alloc();
    let name = Text::from_bytes(alloc, b"a.f")?;
    let mut files = store(alloc, b"a.f", b"12345", NEVER)?;
    let held = files.fetch(alloc, Role::Input, &name, 5);
    assert!(rt; is_got(&held, b"12345"), "at its limit");
    let longer = files.fetch(alloc, Role::Input, &name, 4);
    assert!(rt; matches!(longer, Fetched::TooLong), "past its limit");
    Ok(())
}

#[test]
fn call_that_is_to_fail_fails(rt: HostRuntime) -> Result<(), Fail> {
    let alloc = rt.alloc();
    let name = Text::from_bytes(alloc, b"a.f")?;
    let mut files = store(alloc, b"a.f", b"12345", 1)?;
    let held = files.fetch(alloc, Role::Input, &name, 5);
    assert!(rt; is_got(&held, b"12345"), "call 0");
    let failed = files.fetch(alloc, Role::Input, &name, 5);
    assert!(rt; matches!(failed, Fetched::Failed), "call 1");
    Ok(())
}

#[test]
fn other_name_is_absent(rt: HostRuntime) -> Result<(), Fail> {
    let alloc = rt.alloc();
    let other = Text::from_bytes(alloc, b"b.f")?;
    let mut files = store(alloc, b"a.f", b"12345", NEVER)?;
    let absent = files.fetch(alloc, Role::Base, &other, 5);
    assert!(rt; matches!(absent, Fetched::Absent), "no such name");
    Ok(())
}

#[test]
fn kept_text_replaces_the_held_one(rt: HostRuntime) -> Result<(), Fail> {
    let alloc = rt.alloc();
    let name = Text::from_bytes(alloc, b"a.f")?;
    let text = Text::from_bytes(alloc, b"6")?;
    let mut files = store(alloc, b"a.f", b"12345", 2)?;
    assert_eq!(rt; files.keep(&name, &text), Kept::Done);
    let kept = files.fetch(alloc, Role::Base, &name, 5);
    assert!(rt; is_got(&kept, b"6"), "kept");
    assert_eq!(rt; files.keep(&name, &text), Kept::Failed);
    Ok(())
}

const REAL: &str = "cases_base_real_file.txt";

#[test]
fn real_file_is_kept_and_fetched(rt: HostRuntime) -> Result<(), Fail> {
    let alloc = rt.alloc();
    let name = Text::from_bytes(alloc, REAL.as_bytes())?;
    let text = Text::from_bytes(alloc, b"12345")?;
    let mut files = FileStore::new(&rt);
    assert_eq!(rt; files.keep(&name, &text), Kept::Done);
    let whole = files.fetch(alloc, Role::Input, &name, 5);
    assert!(rt; is_got(&whole, b"12345"), "at its limit");
    let longer = files.fetch(alloc, Role::Input, &name, 4);
    assert!(rt; matches!(longer, Fetched::TooLong), "past its limit");
    std::fs::remove_file(&rt, REAL)?;
    let gone = files.fetch(alloc, Role::Base, &name, 5);
    assert!(rt; matches!(gone, Fetched::Absent), "removed");
    Ok(())
}

const REPLACED: &str = "cases_base_replaced_file.txt";

#[test]
fn real_file_is_replaced(rt: HostRuntime) -> Result<(), Fail> {
    let alloc = rt.alloc();
    let name = Text::from_bytes(alloc, REPLACED.as_bytes())?;
    let mut files = FileStore::new(&rt);
    for bytes in ["12345", "123", "123", "678"] {
        let text = Text::from_bytes(alloc, bytes.as_bytes())?;
        assert_eq!(rt; files.keep(&name, &text), Kept::Done, "{bytes}");
        let kept = files.fetch(alloc, Role::Base, &name, 5);
        assert!(rt; is_got(&kept, bytes.as_bytes()), "{bytes}");
    }
    std::fs::remove_file(&rt, REPLACED)?;
    Ok(())
}

#[test]
fn folder_is_no_file(rt: HostRuntime) -> Result<(), Fail> {
    let alloc = rt.alloc();
    let name = Text::from_bytes(alloc, b"/")?;
    let mut files = FileStore::new(&rt);
    let folder = files.fetch(alloc, Role::Input, &name, 5);
    assert!(rt; matches!(folder, Fetched::Failed), "a folder");
    assert_eq!(rt; files.keep(&name, &name), Kept::Failed);
    Ok(())
}
