//! Lines whose numbers and bytes are kept in memory.
use super::*;
use std::test::Fail;
use text::Words;

#[test]
fn start_counts(rt: HostRuntime) -> Result<(), Fail> {
    let (places, starts) = read_arcs(rt.alloc(), &mut Words::new(b"3 1 0 65535"))?;
    assert_eq!(rt; places, 3);
    assert_eq!(rt; starts.as_slice(), [1, 0, 65535].as_slice());
    Ok(())
}

#[test]
fn commands(rt: HostRuntime) -> Result<(), Fail> {
    let lines: [&[u8]; 3] = [b"net arcs 2 1 0", b"row 0 hex 00ff", b"rehearse 0 1"];
    for line in lines {
        read_command(rt.alloc(), line)?;
    }
    Ok(())
}
