//! What each call stores of a buffer by flatc 2.0.8, by the positions of the format.

use crate::*;
use planus::TableKind;
use std::test::Fail;

// A ship Anna of hull 513 with three numbers, a mate B, two names, a crew of C, an owner D and a
// holder E, which are ships, and open; a ship's hull is 7 where it is absent.
const SHIP: [u8; 216] = [
    0x20, 0x00, 0x00, 0x00, 0x00, 0x00, 0x1a, 0x00, 0x28, 0x00, 0x08, 0x00, 0x06, 0x00, 0x0c, 0x00,
    0x10, 0x00, 0x14, 0x00, 0x18, 0x00, 0x04, 0x00, 0x1c, 0x00, 0x20, 0x00, 0x24, 0x00, 0x05, 0x00,
    0x1a, 0x00, 0x00, 0x00, 0x01, 0x01, 0x01, 0x02, 0xa4, 0x00, 0x00, 0x00, 0x94, 0x00, 0x00, 0x00,
    0x80, 0x00, 0x00, 0x00, 0x5c, 0x00, 0x00, 0x00, 0x40, 0x00, 0x00, 0x00, 0x2c, 0x00, 0x00, 0x00,
    0x20, 0x00, 0x00, 0x00, 0x04, 0x00, 0x00, 0x00, 0x01, 0x00, 0x00, 0x00, 0x04, 0x00, 0x00, 0x00,
    0xa6, 0xff, 0xff, 0xff, 0x04, 0x00, 0x00, 0x00, 0x01, 0x00, 0x00, 0x00, 0x45, 0x00, 0x00, 0x00,
    0x01, 0x00, 0x00, 0x00, 0x01, 0x00, 0x00, 0x00, 0xbe, 0xff, 0xff, 0xff, 0x04, 0x00, 0x00, 0x00,
    0x01, 0x00, 0x00, 0x00, 0x44, 0x00, 0x00, 0x00, 0x01, 0x00, 0x00, 0x00, 0x04, 0x00, 0x00, 0x00,
    0xd6, 0xff, 0xff, 0xff, 0x04, 0x00, 0x00, 0x00, 0x01, 0x00, 0x00, 0x00, 0x43, 0x00, 0x00, 0x00,
    0x02, 0x00, 0x00, 0x00, 0x10, 0x00, 0x00, 0x00, 0x04, 0x00, 0x00, 0x00, 0x02, 0x00, 0x00, 0x00,
    0x79, 0x7a, 0x00, 0x00, 0x01, 0x00, 0x00, 0x00, 0x78, 0x00, 0x06, 0x00, 0x08, 0x00, 0x04, 0x00,
    0x06, 0x00, 0x00, 0x00, 0x04, 0x00, 0x00, 0x00, 0x01, 0x00, 0x00, 0x00, 0x42, 0x00, 0x00, 0x00,
    0x03, 0x00, 0x00, 0x00, 0x01, 0x00, 0x02, 0x00, 0x03, 0x00, 0x00, 0x00, 0x04, 0x00, 0x00, 0x00,
    0x41, 0x6e, 0x6e, 0x61, 0x00, 0x00, 0x00, 0x00,
];

struct Ship;

impl TableKind for Ship {
    type Writer = planus::TableWriter<26>;

    ghost name = { codes "[Ship]" };

    ghost use Rattle.std.specs.Prelude.{codes};

    fn name() -> &'static str {
        "[Ship]"
    }
}

const MATE: usize = 48;

#[test]
fn numbers_are_stored_or_their_default(rt: HostRuntime) -> Result<(), Fail> {
    let mut hull = 0_u16;
    assert!(rt; read_value_or(&SHIP, 0, 1, 7_u16, "Ship", "hull", &mut hull) == OK);
    assert!(rt; hull == 513, "{hull}");
    assert!(rt; read_value_or(&SHIP, MATE, 1, 7_u16, "Ship", "hull", &mut hull) == OK);
    assert!(rt; hull == 7, "{hull}");
    assert!(rt; read_value_if(&SHIP, MATE, 1, "Ship", "hull", &mut hull) == ABSENT);
    assert!(rt; read_value(&SHIP, MATE, 1, "Ship", "hull", &mut hull) == 9);
    assert!(rt; read_value_if(&SHIP, 215, 1, "Ship", "hull", &mut hull) == 2);
    assert!(rt; hull == 7, "stored with an error");
    let mut open = [7];
    assert!(rt; read_bytes_or(&SHIP, 0, 10, false, "Ship", "open", &mut open) == OK);
    assert!(rt; open == [1], "not open");
    assert!(rt; read_bytes_if::<bool, 1>(&SHIP, MATE, 10, "Ship", "open", &mut open) == ABSENT);
    assert!(rt; read_bytes::<bool, 1>(&SHIP, MATE, 10, "Ship", "open", &mut open) == 9);
    assert!(rt; open == [1], "stored with an error");
    Ok(())
}

// What a call answered, and stored.
fn at(status: u32, span: Span) -> (u32, usize, usize) {
    (status, span.at, span.len)
}

#[test]
fn spans_are_the_bytes_and_the_items(rt: HostRuntime) -> Result<(), Fail> {
    let mut span = Span { at: 5, len: 5 };
    let status = read_text(&SHIP, 0, 0, "Ship", "name", &mut span);
    assert!(rt; at(status, span) == (OK, 208, 4), "name");
    let status = read_text_if(&SHIP, MATE, 0, "Ship", "name", &mut span);
    assert!(rt; at(status, span) == (OK, 188, 1), "the mate's name");
    let status = read_items_if::<u16>(&SHIP, 0, 2, "Ship", "cargo", &mut span);
    assert!(rt; at(status, span) == (OK, 196, 3), "cargo");
    let status = read_items::<u16>(&SHIP, MATE, 2, "Ship", "cargo", &mut span);
    assert!(rt; at(status, span) == (9, 196, 3), "no cargo");
    let status = read_texts_if(&SHIP, 0, 4, "Ship", "names", &mut span);
    assert!(rt; at(status, span) == (OK, 148, 2), "names");
    let status = read_texts(&SHIP, MATE, 4, "Ship", "names", &mut span);
    assert!(rt; at(status, span) == (9, 148, 2), "no names");
    let status = read_text_at(&SHIP, 152, &mut span);
    assert!(rt; at(status, span) == (OK, 160, 2), "the second name");
    let status = read_tables_if::<Ship>(&SHIP, 0, 5, "Ship", "crew", &mut span);
    assert!(rt; at(status, span) == (OK, 124, 1), "crew");
    let status = read_tables::<Ship>(&SHIP, MATE, 5, "Ship", "crew", &mut span);
    assert!(rt; at(status, span) == (9, 124, 1), "no crew");
    let status = read_sized(&[3, 0, 0, 0, 1, 2, 3, 9], &mut span);
    assert!(rt; at(status, span) == (OK, 4, 3), "after the size");
    Ok(())
}

#[test]
fn tables_and_unions_are_positions(rt: HostRuntime) -> Result<(), Fail> {
    let mut mate = 0;
    assert!(rt; read_table_if(&SHIP, 0, 3, "Ship", "mate", &mut mate) == OK);
    assert!(rt; mate == MATE, "{mate}");
    assert!(rt; read_table_if(&SHIP, MATE, 3, "Ship", "mate", &mut mate) == ABSENT);
    assert!(rt; read_table(&SHIP, MATE, 3, "Ship", "mate", &mut mate) == 9);
    assert!(rt; mate == MATE, "stored with an error");
    let mut member = Member { at: 0, tag: 0 };
    assert!(rt; read_union_if(&SHIP, 0, 6, "Ship", "owner", &mut member) == OK);
    assert!(rt; (member.at, member.tag) == (60, 1), "owner");
    assert!(rt; read_union(&SHIP, MATE, 6, "Ship", "owner", &mut member) == 9);
    assert!(rt; read_union_item(&SHIP, 0, 8, 0, "Ship", "holders", &mut member) == OK);
    assert!(rt; (member.at, member.tag) == (76, 1), "holder");
    assert!(rt; read_union_item(&SHIP, 0, 8, 1, "Ship", "holders", &mut member) == ABSENT);
    let mut name = Span { at: 0, len: 0 };
    assert!(rt; read_text(&SHIP, member.at, 0, "Ship", "name", &mut name) == OK);
    assert!(rt; SHIP[name.at] == b'E', "the holder's name");
    Ok(())
}
