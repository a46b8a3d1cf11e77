//! Structs and enums are the bytes of other builders.

use harbour::{Fix, Gauge, Kind, Level, Port, Pos, Signal};
use planus::errors::ErrorKind;
use planus::{Plain, ReadAsRoot, SliceWithStartOffset, TableRead, TableRef, plain_vector};

pub const GAUGE: Gauge = Gauge {
    depth: -2,
    rises: false,
};

const FIX: Fix = Fix {
    when: 1 << 40,
    at: Pos {
        lat: -33_448_900,
        lon: -70_669_300,
        alt: -1,
    },
    kind: Kind::Ship,
};

// Python's struct.pack('<Qiih2xB3x', 1 << 40, -33448900, -70669300, -1, 2).
const FIX_BYTES: [u8; 24] = [
    0, 0, 0, 0, 0, 1, 0, 0, 60, 156, 1, 254, 12, 172, 201, 251, 255, 255, 0, 0, 2, 0, 0, 0,
];

// By flatc 2.0.8: a table with a vector of two gauges in slot 0, of a depth of 1 that rises, and
// `GAUGE`.
const FLATC_GAUGES: [u8; 40] = [
    12, 0, 0, 0, 0, 0, 6, 0, 8, 0, 4, 0, 6, 0, 0, 0, 4, 0, 0, 0, 2, 0, 0, 0, 1, 0, 0, 0, 1, 0, 0,
    0, 254, 255, 255, 255, 0, 0, 0, 0,
];

fn are_their_bytes() -> bool {
    let mut fix = [7; 24];
    FIX.put(&mut fix);
    let mut gauge = [7; 8];
    GAUGE.put(&mut gauge);
    fix == FIX_BYTES && gauge.as_slice() == &FLATC_GAUGES[32..]
}

fn are_gauges() -> bool {
    let table: planus::Result<TableRef<'_, Port>> = ReadAsRoot::read_as_root(&FLATC_GAUGES);
    let gauges = match table {
        Ok(table) => plain_vector::<Gauge>(&table.table, 0, "T", "gauges"),
        Err(error) => Err(error),
    };
    match gauges {
        Ok(Some(gauges)) => {
            gauges.len() == 2
                && matches!(
                    gauges.get(0),
                    Some(Gauge {
                        depth: 1,
                        rises: true
                    })
                )
                && gauges.get(1) == Some(GAUGE)
        }
        _ => false,
    }
}

fn at<'a, T: TableRead<'a>>(bytes: &'a [u8], offset: usize) -> Result<T, ErrorKind> {
    TableRead::from_buffer(SliceWithStartOffset::new(bytes, 0), offset)
}

fn are_read() -> bool {
    let mut unknown = FIX_BYTES;
    unknown[20] = 3;
    matches!(at::<Fix>(&FIX_BYTES, 0), Ok(fix) if fix == FIX)
        && matches!(at::<Fix>(&FIX_BYTES, 1), Err(ErrorKind::InvalidOffset))
        && matches!(
            at::<Fix>(&unknown, 0),
            Err(ErrorKind::UnknownEnumTag { source }) if source.tag == 3
        )
        && matches!(
            at::<Level>(&FIX_BYTES, 16),
            Err(ErrorKind::UnknownEnumTag { source }) if source.tag == -1
        )
        && matches!(at::<Signal>(&FIX_BYTES, 12), Ok(Signal::Mike))
        && matches!(
            at::<Signal>(&FIX_BYTES, 13),
            Err(ErrorKind::UnknownEnumTag { source }) if source.tag == -84
        )
}

#[test]
fn structs_are_their_bytes(rt: HostRuntime) {
    assert!(rt; are_their_bytes(), "bytes");
    assert!(rt; are_read(), "read");
    assert!(rt; are_gauges(), "another builder's");
}
