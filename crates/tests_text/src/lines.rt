// Inputs cut into lines.
use std::process::Abort;
use text::first_line;

// The first line and what follows it are these.
fn cut(rt: &impl Abort, input: &[u8], line: &[u8], after: &[u8]) {
    assert_eq!(rt; first_line(input), (line, after));
}

#[test]
fn ends(rt: HostRuntime) {
    cut(&rt, b"", b"", b"");
    cut(&rt, b"\n", b"", b"");
    cut(&rt, b"c", b"c", b"");
    cut(&rt, b"c\n", b"c", b"");
    cut(&rt, b"c\nr", b"c", b"r");
    cut(&rt, b"\n\nr", b"", b"\nr");
    cut(&rt, b"c\r\nr\n", b"c\r", b"r\n");
}
