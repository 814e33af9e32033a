// What a session's own error prints.
use crate::NoMemory;
use std::test::Fail;

#[test]
fn want_of_memory_prints_itself(rt: HostRuntime) -> Result<(), Fail> {
    let text = NoMemory.to_string(rt.alloc())?;
    assert_eq!(rt; text.as_str(), "no memory for this session");
    Ok(())
}
