use by_hand::{Features, Kind, Pos, Site, SiteFields, SiteRef, home_read_back, point};
use planus::errors::{ErrorKind, UnknownEnumTagKind};
use planus::{BuildError, Builder, Caches, Error, read_root};
use planus_testing::{Test, check, check_eq, in_builder};
use std::test::Fail;

const PARIS: Pos = Pos {
    lat: 48_856_600,
    lon: 2_352_200,
    alt: 35,
};

const SANTIAGO: Pos = Pos {
    lat: -33_448_900,
    lon: -70_669_300,
    alt: -1,
};

// By flatc 2.0.8, before `depth` and `levels`: a site with these values, a fix and a leg, the kind
// Ship, heat -1.5, the kinds Ship and Car, water and a road.
const FLATC_SITE: [u8; 168] = [
    0x18, 0x00, 0x00, 0x00, 0x14, 0x00, 0x68, 0x00, 0x08, 0x00, 0x14, 0x00, 0x18, 0x00, 0x06, 0x00,
    0x30, 0x00, 0x34, 0x00, 0x38, 0x00, 0x07, 0x00, 0x14, 0x00, 0x00, 0x00, 0x00, 0x00, 0x02, 0x05,
    0x18, 0x7e, 0xe9, 0x02, 0x48, 0xe4, 0x23, 0x00, 0x23, 0x00, 0x00, 0x00, 0x60, 0x00, 0x00, 0x00,
    0x00, 0x00, 0x00, 0x00, 0x00, 0x01, 0x00, 0x00, 0x3c, 0x9c, 0x01, 0xfe, 0x0c, 0xac, 0xc9, 0xfb,
    0xff, 0xff, 0x00, 0x00, 0x02, 0x00, 0x00, 0x00, 0x00, 0x00, 0xc0, 0xbf, 0x34, 0x00, 0x00, 0x00,
    0x01, 0x00, 0x00, 0x00, 0x00, 0x00, 0x00, 0x00, 0x02, 0x00, 0x00, 0x00, 0xfd, 0xff, 0xff, 0xff,
    0x04, 0x00, 0x00, 0x00, 0x00, 0x00, 0x00, 0x00, 0x05, 0x00, 0x00, 0x00, 0x00, 0x00, 0x00, 0x00,
    0xfa, 0xff, 0xff, 0xff, 0x07, 0x00, 0x00, 0x00, 0xf8, 0xff, 0x00, 0x00, 0x01, 0x00, 0x00, 0x00,
    0x02, 0x00, 0x00, 0x00, 0x02, 0x00, 0x00, 0x00, 0x00, 0x00, 0x00, 0x00, 0x02, 0x00, 0x00, 0x00,
    0x18, 0x7e, 0xe9, 0x02, 0x48, 0xe4, 0x23, 0x00, 0x23, 0x00, 0x00, 0x00, 0x3c, 0x9c, 0x01, 0xfe,
    0x0c, 0xac, 0xc9, 0xfb, 0xff, 0xff, 0x00, 0x00,
];

fn check_track(test: &Test<'_>, site: &SiteRef<'_>) {
    match site.track() {
        Ok(Some(track)) => {
            check_eq(test, &track.len(), &2, "the track");
            check_eq(
                test,
                &point(&track, 0),
                &Some(PARIS),
                "the track's first point",
            );
            check_eq(
                test,
                &point(&track, 1),
                &Some(SANTIAGO),
                "the track's second point",
            );
            check_eq(test, &point(&track, 2), &None, "no third point");
        }
        _ => check(test, false, "the track"),
    }
}

fn check_kinds(test: &Test<'_>, site: &SiteRef<'_>) {
    match site.kinds() {
        Ok(Some(kinds)) => {
            check_eq(test, &kinds.len(), &2, "the kinds");
            check_eq(test, &kinds.get(0), &Some(Ok(Kind::Ship)), "the first kind");
            check_eq(test, &kinds.get(1), &Some(Ok(Kind::Car)), "the second kind");
        }
        _ => check(test, false, "the kinds"),
    }
}

fn check_features(test: &Test<'_>, site: &SiteRef<'_>) {
    match site.features() {
        Ok(features) => {
            let both = Features::POWER.with(Features::ROAD);
            check_eq(test, &features.bits, &5, "the features");
            check(test, features.has(Features::ROAD), "a road");
            check(test, !features.has(both), "no power");
        }
        Err(error) => check_eq(test, &Some(error), &None, "the features"),
    }
}

fn check_site(test: &Test<'_>, bytes: &[u8], kind: Kind, heat: f32) {
    let site: Result<SiteRef<'_>, _> = read_root(bytes);
    let Ok(site) = site else {
        return check(test, false, "a site");
    };
    check_eq(test, &site.home(), &Ok(PARIS), "the home");
    check_eq(test, &site.kind(), &Ok(kind), "the kind");
    check_eq(test, &site.heat(), &Ok(heat), "the heat");
    check_track(test, &site);
    check_kinds(test, &site);
    check_features(test, &site);
}

fn fields(kind: Kind, heat: f32) -> SiteFields<'static> {
    SiteFields {
        home: PARIS,
        track: Some(&[PARIS, SANTIAGO]),
        kind,
        heat,
        kinds: &[Kind::Ship, Kind::Car],
        features: Features::WATER.with(Features::ROAD),
        depth: 0.0,
        levels: &[],
    }
}

fn check_written(
    test: &Test<'_>,
    builder: &mut Builder,
    kind: Kind,
    heat: f32,
) -> Result<(), BuildError> {
    builder.clear();
    let site = Site::create(builder, fields(kind, heat))?;
    check_site(test, builder.finish(site, None)?, kind, heat);
    Ok(())
}

fn check_home(test: &Test<'_>, builder: &mut Builder) -> Result<(), BuildError> {
    let home = home_read_back(builder, fields(Kind::Car, 0.0))?;
    check_eq(test, &home, &Ok(PARIS), "a home");
    Ok(())
}

// A bike is the default.
fn check_all(test: &Test<'_>, builder: &mut Builder) -> Result<(), BuildError> {
    check_written(test, builder, Kind::Ship, -1.5)?;
    check_written(test, builder, Kind::Bike, 1.0e30)
}

#[test]
fn sites_are_read_back(rt: HostRuntime) -> Result<(), Fail> {
    let test = Test::new(&rt);
    check_site(&test, &FLATC_SITE, Kind::Ship, -1.5);
    in_builder(&test, Caches::all(), check_all);
    in_builder(&test, Caches::all(), check_home);
    test.end()
}

fn check_unknown(test: &Test<'_>, error: Error, type_: &str, method: &str) {
    let (location, kind) = (error.source_location, error.error_kind);
    let source = UnknownEnumTagKind { tag: 9 };
    check_eq(
        test,
        &kind,
        &ErrorKind::UnknownEnumTag { source },
        "an unknown kind",
    );
    check_eq(test, &location.type_, &type_, "where an unknown kind is");
    check_eq(test, &location.method, &method, "what read an unknown kind");
}

fn check_unknown_field(test: &Test<'_>, site: &SiteRef<'_>) {
    match site.kind() {
        Ok(kind) => check_eq(test, &Some(kind), &None, "an unknown kind"),
        Err(error) => {
            check_eq(
                test,
                &error.source_location.byte_offset,
                &24,
                "where a site is",
            );
            check_unknown(test, error, "Site", "kind");
        }
    }
    check_eq(
        test,
        &site.kind_or(Kind::Car),
        &Ok(Kind::Car),
        "a kind in its place",
    );
}

fn check_unknown_item(test: &Test<'_>, site: &SiteRef<'_>) {
    let Ok(Some(kinds)) = site.kinds() else {
        return check(test, false, "kinds");
    };
    check_eq(test, &kinds.get(0), &Some(Ok(Kind::Ship)), "a known kind");
    match kinds.get(1) {
        Some(Err(error)) => check_unknown(test, error, "[plain]", "get"),
        _ => check(test, false, "an unknown item"),
    }
}

fn check_unknown_kinds(test: &Test<'_>) {
    let mut bytes = FLATC_SITE;
    bytes[30] = 9;
    bytes[133] = 9;
    let site: Result<SiteRef<'_>, _> = read_root(&bytes);
    match site {
        Ok(site) => {
            check_unknown_field(test, &site);
            check_unknown_item(test, &site);
        }
        Err(_) => check(test, false, "a site of unknown kinds"),
    }
}

fn check_named(test: &Test<'_>, error: Error, method: &str) {
    let location = error.source_location;
    let is_expected = matches!(
        error.error_kind,
        ErrorKind::InvalidOffset
            | ErrorKind::InvalidLength
            | ErrorKind::MissingRequired
            | ErrorKind::UnknownEnumTag { .. }
    );
    check_eq(test, &location.type_, &"Site", method);
    check_eq(test, &location.method, &method, method);
    check(test, is_expected, method);
}

macro_rules! check_answer {
    ($test:ident, $site:ident, $accessor:ident, $name:literal) => {
        match $site.$accessor() {
            Ok(_) => {}
            Err(error) => check_named($test, error, $name),
        }
    };
}

fn check_answers(test: &Test<'_>, bytes: &[u8]) {
    let site: Result<SiteRef<'_>, _> = read_root(bytes);
    let Ok(site) = site else {
        return;
    };
    check_answer!(test, site, home, "home");
    check_answer!(test, site, track, "track");
    check_answer!(test, site, kind, "kind");
    check_answer!(test, site, heat, "heat");
    check_answer!(test, site, kinds, "kinds");
    check_answer!(test, site, features, "features");
    check_answer!(test, site, depth, "depth");
    check_answer!(test, site, levels, "levels");
}

fn check_damage(test: &Test<'_>) {
    for i in 0..FLATC_SITE.len() {
        for other in [0, 1, 2, 0x7f, 0xff] {
            let mut bytes = FLATC_SITE;
            bytes[i] = other;
            check_answers(test, &bytes);
        }
        check_answers(test, &FLATC_SITE[..i]);
    }
}

#[test]
fn damaged_sites_are_answered(rt: HostRuntime) -> Result<(), Fail> {
    let test = Test::new(&rt);
    check_unknown_kinds(&test);
    check_damage(&test);
    test.end()
}
