use super::check_script;
use planus_testing::{Test, check};
use std::test::Fail;

// `script|printed;`, in a string, since a constant array is written out in the proof of the
// function that has it.
const CLEAN: &str = "\
    |;\
    text Axe\nfinish 0\n|04 00 00 00 03 00 00 00 41 78 65 00\n;\
    text Axe\nfinish 0|04 00 00 00 03 00 00 00 41 78 65 00\n;\
    text Hi\ntext Hi\nfinish 1\n|04 00 00 00 02 00 00 00 48 69 00\n;\
    text\nfinish 0 TEST\n|08 00 00 00 54 45 53 54 00 00 00 00 00\n;\
    text\nfinish 0\n|04 00 00 00 00 00 00 00 00\n;\
    text Axe\nfinish 0\nfinish 0\n|\
        04 00 00 00 03 00 00 00 41 78 65 00\n08 00 00 00 04 00 00 00 03 00 00 00 41 78 65 00\n;\
    text Hi\nclear\ntext Axe\nfinish 2\n|04 00 00 00 03 00 00 00 41 78 65 00\n;\
    # a comment\n\ntext Axe\nfinish 0\n|04 00 00 00 03 00 00 00 41 78 65 00\n;\
    u16 1 2\nfinish 0\n|04 00 00 00 02 00 00 00 01 00 02 00\n;\
    text Hi\nu64 1\nfinish 1\n|\
        04 00 00 00 01 00 00 00 01 00 00 00 00 00 00 00 02 00 00 00 48 69 00\n;\
    u32 4294967295\nfinish 0\n|04 00 00 00 01 00 00 00 ff ff ff ff\n;\
    bytes 417865\nfinish 0\n|04 00 00 00 03 00 00 00 41 78 65\n;\
    bytes\nfinish 0\n|04 00 00 00 00 00 00 00\n;\
    text A\ntext B\nrefs 0 1\nfinish 2\n|\
        04 00 00 00 02 00 00 00 10 00 00 00 04 00 00 00 01 00 00 00 42 00 00 00 01 00 00 00 41 \
        00\n;\
    table\nfinish 0\n|04 00 00 00 fc ff ff ff 04 00 04 00\n;\
    table 0=u64:1 2=u8:2\nfinish 0\n|\
        04 00 00 00 f2 ff ff ff 01 00 00 00 00 00 00 00 02 00 0a 00 0d 00 04 00 00 00 0c 00\n;\
    text Axe\ntable 0=ref:0 1=u16:24\nfinish 1\n|\
        04 00 00 00 f4 ff ff ff 10 00 00 00 18 00 00 00 08 00 0a 00 04 00 08 00 03 00 00 00 41 78 \
        65 00\n;\
    table 0=u16:24\ntable 0=u16:7\nfinish 1\n|\
        04 00 00 00 f2 ff ff ff 07 00 00 00 fa ff ff ff 18 00 06 00 06 00 04 00\n;\
    text A\ntext B\nunions 1:0 2:1\ntable 0=tags:2 1=values:2\nfinish 3\n|\
        04 00 00 00 f4 ff ff ff 10 00 00 00 14 00 00 00 08 00 0c 00 04 00 08 00 02 00 00 00 01 02 \
        00 00 02 00 00 00 10 00 00 00 04 00 00 00 01 00 00 00 42 00 00 00 01 00 00 00 41 00\n;\
    struct 4 01000000\nfinish 0\n|04 00 00 00 01 00 00 00\n;\
    struct 8 0102030405060708\ntext A\nunions 2:1 1:0\ntable 0=tags:2 1=values:2\nfinish 3\n|\
        08 00 00 00 00 00 00 00 f4 ff ff ff 10 00 00 00 14 00 00 00 08 00 0c 00 04 00 08 00 02 00 \
        00 00 02 01 00 00 02 00 00 00 08 00 00 00 0c 00 00 00 01 00 00 00 41 00 00 00 01 02 03 04 \
        05 06 07 08\n;\
    struct 1 ff\ntext\nfinish 1\n|04 00 00 00 00 00 00 00 00 ff\n;\
    bytes 4a4B\nfinish 0\n|04 00 00 00 02 00 00 00 4a 4b\n;\
    u16 007\nfinish 0\n|04 00 00 00 01 00 00 00 07 00\n;\
    u16 00000000000000000007\nfinish 0\n|04 00 00 00 01 00 00 00 07 00\n;\
    u64 18446744073709551615\nfinish 0\n|04 00 00 00 01 00 00 00 ff ff ff ff ff ff ff ff\n;\
    text A\r\nfinish 0\n|04 00 00 00 02 00 00 00 41 0d 00\n;\
    text A\tB\nfinish 0\n|04 00 00 00 03 00 00 00 41 09 42 00\n;\
    text\nfinish 0 !~!~\n|08 00 00 00 21 7e 21 7e 00 00 00 00 00\n;\
    text Axe\nsized 0\n|0c 00 00 00 04 00 00 00 03 00 00 00 41 78 65 00\n;\
    text Axe\nsized 0 TEST\n|10 00 00 00 08 00 00 00 54 45 53 54 03 00 00 00 41 78 65 00\n;\
    text Hi\nu64 1\nsized 1\n|\
        1b 00 00 00 08 00 00 00 00 00 00 00 01 00 00 00 01 00 00 00 00 00 00 00 02 00 00 00 48 69 \
        00\n;\
    text Axe\nsized 0\nfinish 0\n|\
        0c 00 00 00 04 00 00 00 03 00 00 00 41 78 65 00\n0c 00 00 00 0c 00 00 00 04 00 00 00 03 \
        00 00 00 41 78 65 00\n";

const FAULTY: &str = "\
    text A\nfinish 0\nfinish 1\n|line 3: wrong kind\n;\
    text A\nfinish 1\n|line 2: no such step\n;\
    text A\nclear\nfinish 0\n|line 3: no such step\n;\
    clear\nfinish 0\n|line 2: no such step\n;\
    finish 0\n|line 1: no such step\n;\
    \n# a comment\nfinish 0\n|line 3: no such step\n;\
    text A\nfinish 18446744073709551615\n|line 2: no such step\n;\
    text A\ntexts\n|line 2: unknown command\n;\
    text A\nfinish\n|line 2: unknown command\n;\
    text A\nfinish 0 TEST more\n|line 2: unknown command\n;\
    clear now\n|line 1: unknown command\n;\
    text A\nfinish  0\n|line 2: bad number\n;\
    text A\nfinish 18446744073709551616\n|line 2: bad number\n;\
    text A\nfinish +0\n|line 2: bad number\n;\
    text A\nfinish 0 TES\n|line 2: bad identifier\n;\
    text A\nfinish 0 \n|line 2: bad identifier\n;\
    text A\nfinish x TES\n|line 2: bad number\n;\
    finish 0\ntexts\n|line 2: unknown command\n;\
    u16 65536\n|line 1: value too big\n;\
    u16 65535 65536\ntext\n|line 1: value too big\n;\
    u32 4294967296\n|line 1: value too big\n;\
    u16 1  2\n|line 1: bad number\n;\
    u16 1 \n|line 1: bad number\n;\
    struct 3 000000\n|line 1: alignment unknown\n;\
    struct 0 00\n|line 1: alignment unknown\n;\
    struct 272 00\n|line 1: alignment unknown\n;\
    struct 4 000000\n|line 1: wrong size\n;\
    struct\n|line 1: unknown command\n;\
    struct 4\n|line 1: unknown command\n;\
    struct 4 00000000 00\n|line 1: unknown command\n;\
    struct x 00\n|line 1: bad number\n;\
    struct 4 \n|line 1: bad hex\n;\
    struct 4 0\n|line 1: bad hex\n;\
    struct 1 00\ntable 0=tags:0\n|line 2: wrong kind\n;\
    bytes 0\n|line 1: bad hex\n;\
    bytes 0g\n|line 1: bad hex\n;\
    bytes 00 \n|line 1: bad hex\n;\
    bytes \n|line 1: bad hex\n;\
    bytes 00 11\n|line 1: bad hex\n;\
    refs 5\n|line 1: no such step\n;\
    text A\nfinish 0\nrefs 0 1 7\n|line 3: wrong kind\n;\
    table 0:u8=1\n|line 1: bad field\n;\
    table 0=u24:1\n|line 1: bad field\n;\
    table \n|line 1: bad field\n;\
    table x=y\n|line 1: bad field\n;\
    table x=u8:1\n|line 1: bad number\n;\
    table 0=u8:x\n|line 1: bad number\n;\
    table 3=u8:1 3=u8:2\n|line 1: slot twice\n;\
    table 0=u16:1 1=u32:2\n|line 1: rising alignment\n;\
    table 256=u8:1\n|line 1: slot too big\n;\
    table 65536=u8:1\n|line 1: slot too big\n;\
    table 18446744073709551615=u8:1\n|line 1: slot too big\n;\
    table 0=u8:256\n|line 1: value too big\n;\
    table 0=ref:0\n|line 1: no such step\n;\
    unions\nfinish 0\n|line 2: wrong kind\n;\
    unions 0:0\n|line 1: zero tag\n;\
    unions 1:1\n|line 1: no such step\n;\
    unions \n|line 1: bad field\n;\
    unions 1\n|line 1: bad field\n;\
    unions 256:x\n|line 1: bad field\n;\
    unions x:0\n|line 1: bad number\n;\
    unions 1:x\n|line 1: bad number\n;\
    text A\ntable 0=tags:0\n|line 2: wrong kind\n;\
    unions\ntable 0=ref:0\n|line 2: wrong kind\n;\
    unions\nrefs 0\n|line 2: wrong kind\n;\
    unions\nunions 1:0\n|line 2: wrong kind\n;\
    u16 000000000000000000007\n|line 1: bad number\n;\
    text A\nfinish 0\r\n|line 2: bad number\n;\
    u16\t1\n|line 1: unknown command\n;\
    clear \n|line 1: unknown command\n;\
    text\nfinish 0 AB\x7fC\n|line 2: bad identifier\n;\
    table 0=u8:1:2\n|line 1: bad number\n;\
    text A\nsized\n|line 2: unknown command\n;\
    text A\nsized 0 TEST more\n|line 2: unknown command\n;\
    text A\nsized x TES\n|line 2: bad number\n;\
    text A\nsized 0 TES\n|line 2: bad identifier\n;\
    text A\nsized 1\n|line 2: no such step\n;\
    text A\nsized 0\nrefs 1\n|line 3: wrong kind\n";

fn check_row(test: &Test<'_>, row: &str, clean: bool) {
    match row.split_once('|') {
        Some((script, printed)) => {
            check_script(
                test,
                script.as_bytes(),
                0,
                printed.as_bytes(),
                clean,
                script,
            );
        }
        None => check(test, false, row),
    }
}

#[test]
fn scripts(rt: HostRuntime) -> Result<(), Fail> {
    let test = Test::new(&rt);
    for (rows, clean) in [(CLEAN, true), (FAULTY, false)] {
        for row in rows.split(';') {
            check_row(&test, row, clean);
        }
    }
    test.end()
}

// A line that isn't UTF-8 is an error, but not in a comment.
#[test]
fn scripts_that_are_not_utf_8(rt: HostRuntime) -> Result<(), Fail> {
    let test = Test::new(&rt);
    check_script(
        &test,
        b"text \xff\n",
        0,
        b"line 1: not utf-8\n",
        false,
        "in a text",
    );
    check_script(&test, b"# \xff\n", 0, b"", true, "in a comment");
    test.end()
}
