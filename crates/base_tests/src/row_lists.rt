//! Tests of owned lists of items, of bytes and of text.

use rows::{Bytes, Rows, Text};
use std::test::Fail;

#[test]
fn rows_keep_their_items(rt: HostRuntime) -> Result<(), Fail> {
    let mut rows: Rows<u32> = Rows::new(rt.alloc());
    assert!(rt; rows.is_empty());
    rows.push(7)?;
    rows.push(9)?;
    assert!(rt; rows.len() == 2 && rows.as_slice() == [7, 9].as_slice());
    assert!(rt; rows.get(1).copied() == Some(9) && rows.get(2).copied() == None);
    let again = Rows::from(rows.into_vec());
    assert!(rt; again.iter().copied().eq([7, 9]));
    Ok(())
}

#[test]
fn rows_are_gone_over(rt: HostRuntime) -> Result<(), Fail> {
    let rows = Rows::from_vec(vec![in rt.alloc(); 1u32, 2, 3]?);
    let mut lent = Vec::new(rt.alloc());
    for item in &rows {
        lent.push(*item)?;
    }
    assert!(rt; lent.as_slice() == [1, 2, 3].as_slice());
    assert!(rt; rows.iter().rev().copied().eq([3, 2, 1]));
    assert!(rt; rows.into_iter().eq([1, 2, 3]));
    Ok(())
}

#[test]
fn bytes_and_text_are_copied(rt: HostRuntime) -> Result<(), Fail> {
    let bytes = Bytes::from_slice(rt.alloc(), b"ab")?;
    assert!(rt; bytes.as_slice() == b"ab".as_slice());
    assert!(rt; Bytes::new(rt.alloc()).is_empty());
    let bytes = Bytes::from(bytes.into_vec());
    assert!(rt; bytes.len() == 2);
    let text = Text::copy_of(rt.alloc(), "añ")?;
    assert!(rt; text.as_str() == "añ" && text.len() == 3 && text.as_bytes().len() == 3);
    assert!(rt; Text::new(rt.alloc()).is_empty());
    let text = Text::from(text.into_string());
    assert!(rt; text.as_str() == "añ");
    Ok(())
}
