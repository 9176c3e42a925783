// Lists of bytes and of SDUs.
use link_base::{Bytes, SduList, copy_bytes};
use std::test::Fail;

#[test]
fn keeps_items_in_order(rt: HostRuntime) -> Result<(), Fail> {
    let alloc = rt.alloc();
    let mut bytes = Bytes::new(alloc);
    assert!(rt; bytes.is_empty());
    bytes.push(97)?;
    assert_eq!(rt; bytes.len(), 1);
    assert_eq!(rt; bytes.get(0), Some(&97));
    assert_eq!(rt; bytes.get(1), None);
    bytes.append(b"bc")?;
    assert_eq!(rt; bytes.as_slice(), b"abc".as_slice());
    assert_eq!(rt; copy_bytes(alloc, b"ab")?.as_slice(), b"ab".as_slice());
    let mut sdus = SduList::new(alloc);
    sdus.push(bytes)?;
    assert_eq!(rt; sdus.into_vec().len(), 1);
    Ok(())
}
