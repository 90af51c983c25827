use crate::mode::LineMode;
use crate::operation::combine;
use std::test::Fail;

// A code gives itself on the words whose bits are the columns of the table.
#[test]
fn code_on_its_table(rt: HostRuntime) {
    assert_eq!(rt; combine(0xB8, 0xF0, 0xCC, 0xAA), 0xB8);
    assert_eq!(rt; combine(0x66, 0, 5, 3), 6);
}

#[test]
fn xor_pen(rt: HostRuntime) -> Result<(), Fail> {
    assert_eq!(rt; LineMode::try_from(7)?.mix(12, 10), 6);
    Ok(())
}
