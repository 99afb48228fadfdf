use super::read_input;
use std::test::Fail;

#[test]
fn input_is_read_to_its_end_or_its_bound(rt: HostRuntime) -> Result<(), Fail> {
    let bytes = [7u8; 8 + 3 * 512 + 4096 + 1];
    assert_eq!(rt; read_input(rt.alloc(), &bytes[0..0])?.len(), 0);
    assert_eq!(rt; read_input(rt.alloc(), &bytes[0..5639])?.len(), 5639);
    assert_eq!(rt; read_input(rt.alloc(), &bytes[0..5641])?.len(), 5640);
    Ok(())
}
