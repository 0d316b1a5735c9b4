//! What a refusal says in words, if a device or memory fails too.
use pc_types::{Point, Refusal};
use std::test::Fail;

#[test]
fn said_in_words(rt: HostRuntime) -> Result<(), Fail> {
    let alloc = rt.alloc();
    let told = Refusal::Gap(Point(2)).to_string(alloc)?;
    assert_eq!(rt; told.as_str(), "point 2 is not covered");
    let told = Refusal::OutOfMemory.to_string(alloc)?;
    assert_eq!(rt; told.as_str(), "memory ran out");
    let told = Refusal::Device.to_string(alloc)?;
    assert_eq!(rt; told.as_str(), "the device failed");
    Ok(())
}
