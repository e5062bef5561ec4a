// Lines that are read, and lines that are not.
use engine::Instruction;
use std::process::Abort;
use text::read_line;

// The line spells this instruction.
fn read(rt: &impl Abort, line: &[u8], instruction: Instruction) {
    assert_eq!(rt; read_line(line), Some(instruction));
}

// The line is not readable.
fn refused(rt: &impl Abort, line: &[u8]) {
    assert_eq!(rt; read_line(line), None);
}

#[test]
fn readable(rt: HostRuntime) {
    read(&rt, b"c", Instruction::Call);
    read(&rt, b"g 0", Instruction::Read { register: 0 });
    read(
        &rt,
        b"y 10 9",
        Instruction::Copy {
            target: 10,
            source: 9,
        },
    );
    read(
        &rt,
        b"w 34 18446744073709551615 1",
        Instruction::Write {
            register: 34,
            word: 18446744073709551615,
            nat: 1,
        },
    );
    read(
        &rt,
        b"b 1 64 128",
        Instruction::Begin {
            context: 1,
            start: 64,
            size: 128,
        },
    );
}

#[test]
fn letters(rt: HostRuntime) {
    refused(&rt, b"");
    refused(&rt, b" ");
    refused(&rt, b" c");
    refused(&rt, b"m");
    refused(&rt, b"C");
    refused(&rt, b"cc");
    refused(&rt, b"5");
    refused(&rt, &[200]);
    refused(&rt, &[227, 32, 49]);
    refused(&rt, &[0]);
}

#[test]
fn counts_of_operands(rt: HostRuntime) {
    refused(&rt, b"c 1");
    refused(&rt, b"g");
    refused(&rt, b"g 1 2");
    refused(&rt, b"y 1");
    refused(&rt, b"y 1 2 3");
    refused(&rt, b"a 1 2");
    refused(&rt, b"a 1 2 3 4");
    refused(&rt, b"a 1 2 3 4 5 6 7 8 9");
}

#[test]
fn spaces(rt: HostRuntime) {
    refused(&rt, b"c ");
    refused(&rt, b"g 1 ");
    refused(&rt, b"g  1");
    refused(&rt, b"y 1  2");
    refused(&rt, b"g1");
    refused(&rt, &[103, 9, 49]);
    refused(&rt, &[103, 32, 49, 9]);
    refused(&rt, &[99, 13]);
    refused(&rt, &[103, 32, 49, 13]);
    refused(&rt, &[99, 10]);
    refused(&rt, b"y 1,2");
}

#[test]
fn numbers(rt: HostRuntime) {
    refused(&rt, b"g 00");
    refused(&rt, b"g 01");
    refused(&rt, b"g +1");
    refused(&rt, b"g -1");
    refused(&rt, b"g -0");
    refused(&rt, b"g 0x1");
    refused(&rt, b"g 1a");
    refused(&rt, b"g 1.0");
    refused(&rt, b"g 1_0");
    refused(&rt, b"g 18446744073709551616");
    refused(&rt, b"g 18446744073709551620");
    refused(&rt, b"g 99999999999999999999");
    refused(
        &rt,
        b"g 100000000000000000000000000000000000000000000000000000000000000000000000000000000",
    );
    refused(
        &rt,
        b"g 00000000000000000000000000000000000000000000000000000000000000000000000000000001",
    );
    refused(&rt, &[103, 32, 177]);
    refused(&rt, &[103, 32, 49, 128]);
}
