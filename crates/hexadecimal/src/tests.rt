// Texts that spell bytes, and texts that spell none.
use crate::{DecodeError, decode};
use std::test::Fail;

#[test]
fn pairs_of_digits_are_bytes(rt: HostRuntime) -> Result<(), Fail> {
    let bytes = decode(rt.alloc(), b"0aff")?;
    assert!(rt; bytes.as_slice() == [10, 255].as_slice());
    Ok(())
}

#[test]
fn half_a_byte_and_other_letters_are_none(rt: HostRuntime) {
    assert!(rt; decode(rt.alloc(), b"0").err() == Some(DecodeError::NotHexadecimal));
    assert!(rt; decode(rt.alloc(), b"g0").err() == Some(DecodeError::NotHexadecimal));
}
