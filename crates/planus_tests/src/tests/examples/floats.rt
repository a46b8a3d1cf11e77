//! Floats are written as their bits, and read back.

use by_hand::{Features, Kind, Pos, Site, SiteFields, SiteRef};
use planus::{
    BuildError, Builder, Caches, ReadAsRoot, Result, TableRef, Vector, plain_field_or,
    plain_vector, read_root,
};
use planus_testing::{Test, check, check_eq, in_builder};
use std::num::{f32_to_bits_with_nan, f64_to_bits_with_nan};
use std::test::Fail;

struct Row {
    exact: f64,
    bits: u64,
    is_written: bool,
    rough: f32,
    rough_bits: u32,
}

// The bits are those of IEEE 754: a sign, 11 or 8 bits of the exponent, 52 or 23 of the fraction.
const ROWS: &[Row] = &[
    Row {
        exact: 1.5,
        bits: 0x3ff8_0000_0000_0000,
        is_written: true,
        rough: 1.5,
        rough_bits: 0x3fc0_0000,
    },
    Row {
        exact: -0.0,
        bits: 0x8000_0000_0000_0000,
        is_written: false,
        rough: -0.0,
        rough_bits: 0x8000_0000,
    },
    Row {
        exact: f64::INFINITY,
        bits: 0x7ff0_0000_0000_0000,
        is_written: true,
        rough: f32::INFINITY,
        rough_bits: 0x7f80_0000,
    },
    Row {
        exact: f64::NAN,
        bits: 0x7ff8_0000_0000_0000,
        is_written: true,
        rough: f32::NAN,
        rough_bits: 0x7fc0_0000,
    },
    Row {
        exact: 5e-324,
        bits: 1,
        is_written: true,
        rough: 1e-45,
        rough_bits: 1,
    },
];

// By flatc 2.0.8 of `table Sample { exact: double; rough: float; series: [double]; }`: 1.5, the
// least below 0, and infinity, a NaN, the least above 0 and -0.0.
const FLATC_SAMPLE: &[u8] = &[
    0x14, 0x00, 0x00, 0x00, 0x00, 0x00, 0x00, 0x00, 0x00, 0x00, 0x0a, 0x00, 0x18, 0x00, 0x0c, 0x00,
    0x04, 0x00, 0x08, 0x00, 0x0a, 0x00, 0x00, 0x00, 0x01, 0x00, 0x00, 0x80, 0x10, 0x00, 0x00, 0x00,
    0x00, 0x00, 0x00, 0x00, 0x00, 0x00, 0xf8, 0x3f, 0x00, 0x00, 0x00, 0x00, 0x04, 0x00, 0x00, 0x00,
    0x00, 0x00, 0x00, 0x00, 0x00, 0x00, 0xf0, 0x7f, 0x00, 0x00, 0x00, 0x00, 0x00, 0x00, 0xf8, 0x7f,
    0x01, 0x00, 0x00, 0x00, 0x00, 0x00, 0x00, 0x00, 0x00, 0x00, 0x00, 0x00, 0x00, 0x00, 0x00, 0x80,
];

#[derive(Drop)]
struct Read<'a> {
    exact: Result<f64>,
    rough: Result<f32>,
    series: Result<Option<Vector<'a, f64>>>,
}

fn check_bits(test: &Test<'_>, read: &Read<'_>, exact: u64, rough: u32, series: &[u64]) {
    match read.exact {
        Ok(found) => check_eq(test, &f64_to_bits_with_nan(found), &exact, "exact"),
        Err(error) => check_eq(test, &Some(error), &None, "exact"),
    }
    match read.rough {
        Ok(found) => check_eq(test, &f32_to_bits_with_nan(found), &rough, "rough"),
        Err(error) => check_eq(test, &Some(error), &None, "rough"),
    }
    match &read.series {
        Ok(Some(found)) => check_series(test, found, series),
        _ => check(test, false, "series"),
    }
}

fn check_series(test: &Test<'_>, read: &Vector<'_, f64>, series: &[u64]) {
    for (item, bits) in read.iter().zip(series) {
        check_eq(
            test,
            &f64_to_bits_with_nan(item),
            bits,
            "an item of a series",
        );
    }
    check_eq(test, &read.len(), &series.len(), "a series");
}

fn check_flatc_sample(test: &Test<'_>) {
    let series = [0x7ff0_0000_0000_0000, 0x7ff8_0000_0000_0000, 1, 1 << 63];
    let sample: Result<TableRef<'_, Site>> = ReadAsRoot::read_as_root(FLATC_SAMPLE);
    let Ok(sample) = sample else {
        return check(test, false, "another builder's sample");
    };
    let read = Read {
        exact: plain_field_or(&sample.table, 0, 0.0, "Sample", "exact"),
        rough: plain_field_or(&sample.table, 1, 0.0, "Sample", "rough"),
        series: plain_vector(&sample.table, 2, "Sample", "series"),
    };
    check_bits(test, &read, 0x3ff8_0000_0000_0000, 0x8000_0001, &series);
}

fn check_site(test: &Test<'_>, bytes: &[u8], row: &Row) {
    let site: Result<SiteRef<'_>> = read_root(bytes);
    let Ok(site) = site else {
        return check(test, false, "a site");
    };
    let read = Read {
        exact: site.depth(),
        rough: site.heat(),
        series: site.levels(),
    };
    let exact = if row.is_written { row.bits } else { 0 };
    let series = [row.bits, 0x3fe0_0000_0000_0000];
    check_bits(test, &read, exact, row.rough_bits, &series);
}

fn check_row(
    test: &Test<'_>,
    builder: &mut Builder,
    row: &Row,
) -> std::result::Result<(), BuildError> {
    builder.clear();
    let site = SiteFields {
        home: Pos {
            lat: 0,
            lon: 0,
            alt: 0,
        },
        track: None,
        kind: Kind::Car,
        heat: row.rough,
        kinds: &[],
        features: Features::NOTHING,
        depth: row.exact,
        levels: &[row.exact, 0.5],
    };
    let site = Site::create(builder, site)?;
    check_site(test, builder.finish(site, None)?, row);
    Ok(())
}

fn check_rows(test: &Test<'_>, builder: &mut Builder) -> std::result::Result<(), BuildError> {
    for row in ROWS {
        check_row(test, builder, row)?;
    }
    Ok(())
}

#[test]
fn floats_are_read_back(rt: HostRuntime) -> std::result::Result<(), Fail> {
    let test = Test::new(&rt);
    check_flatc_sample(&test);
    in_builder(&test, Caches::all(), check_rows);
    test.end()
}
