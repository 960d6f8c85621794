use ecd_list::{Boxed, ByteList, List};
use std::test::Fail;

#[test]
fn lists_and_boxes_hold_what_they_are_given(rt: HostRuntime) -> Result<(), Fail> {
    let mut list = ByteList::new(rt.alloc());
    list.push(7)?;
    list.push(9)?;
    assert_eq!(rt; list.as_slice(), [7, 9].as_slice());
    let copy = List::from_slice(rt.alloc(), list.as_slice())?;
    assert_eq!(rt; copy.len(), 2);
    let boxed = Boxed::new(rt.alloc(), 5u64)?;
    assert_eq!(rt; *boxed.get(), 5);
    Ok(())
}
