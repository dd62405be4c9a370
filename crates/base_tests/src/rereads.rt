use real_host::read_again;
use std::fs;
use std::test::Fail;

// A regular file within the limit gives its bytes.
#[test]
fn a_regular_file_is_read_again(rt: HostRuntime) -> Result<(), Fail> {
    fs::write(&rt, "again.v", b"module")?;
    let whole = read_again(rt.alloc(), &rt, "again.v", 6);
    let longer = read_again(rt.alloc(), &rt, "again.v", 5);
    fs::remove_file(&rt, "again.v")?;
    assert!(rt; whole.is_some_and(|bytes| bytes.as_slice() == b"module".as_slice()));
    assert!(rt; longer.is_none());
    Ok(())
}

// What is none, or no longer there, gives nothing.
#[test]
fn nothing_else_is_read_again(rt: HostRuntime) -> Result<(), Fail> {
    for name in ["no_such_file.v", "/dev/null", "/"] {
        assert!(rt; read_again(rt.alloc(), &rt, name, 100).is_none(), "{name}");
    }
    Ok(())
}
