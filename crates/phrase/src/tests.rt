// Lines and answers as they are typed and shown.
use crate::*;
use std::alloc::Global;
use std::process::Abort;
use std::test::Fail;

// Whether the line is read as the command that `usual` is the usual form of; `?` stands for none.
fn reads(rt: &impl Abort, heap: Global, line: &[u8], usual: &str) -> Result<(), Fail> {
    let text = match read_command(heap, line) {
        Ok(command) => write_command(heap, &command)?,
        Err(_) => String::from_str(heap, "?")?,
    };
    assert!(rt; text.as_str() == usual, "{}", usual);
    Ok(())
}

#[test]
fn lines_are_read(rt: HostRuntime) -> Result<(), Fail> {
    let heap = rt.alloc();
    reads(
        &rt,
        heap,
        b"\tput  01 0 0 6 0 , 6,6 0 6  # a square\r",
        "put 1 0 0, 6 0, 6 6, 0 6",
    )?;
    reads(&rt, heap, b"at point 0.1 0.25", "at point 2 5 20")?;
    reads(&rt, heap, b"at point 1/1024 1/1025", "?")?;
    reads(&rt, heap, b"drop 18446744073709551616", "?")?;
    reads(&rt, heap, b"quit \xff", "?")
}
