//! Tables by hand, sorted by their names and by their hulls.

mod boats;

use crate::{TextKey, find};
use boats::{BOATS, Boat, ByHull, ByName, boats, hull_of};
use planus::errors::ErrorKind;
use planus::{Error, TableRef};
use std::test::Fail;

// What a look-up finds, by the hull.
fn found_hull(found: Result<Option<TableRef<'_, Boat>>, Error>) -> Option<u16> {
    match found {
        Ok(Some(boat)) => hull_of(&boat).ok(),
        _ => None,
    }
}

fn hull_of_name(name: &str) -> Option<u16> {
    let boats = boats(&BOATS)?;
    found_hull(find(&boats, &ByName, &TextKey(name)))
}

fn hull_of_hull(hull: u16) -> Option<u16> {
    let boats = boats(&BOATS)?;
    found_hull(find(&boats, &ByHull, &hull))
}

#[test]
fn keys_are_found_and_others_are_not(rt: HostRuntime) -> Result<(), Fail> {
    let hulls = [10, 20, 30, 40, 50];
    for (name, hull) in ["Ann", "Be", "Bea", "Cy", "É"].into_iter().zip(hulls) {
        assert!(rt; hull_of_name(name) == Some(hull), "not by the name {name}");
        assert!(rt; hull_of_hull(hull) == Some(hull), "not by the hull {hull}");
    }
    for name in ["", "An", "Anna", "Bee", "Z", "Éa"] {
        assert!(rt; hull_of_name(name).is_none(), "found {name}");
    }
    for hull in [0, 9, 11, 35, 51] {
        assert!(rt; hull_of_hull(hull).is_none(), "found {hull}");
    }
    Ok(())
}

#[test]
fn a_damaged_key_is_an_error_where_it_is_read(rt: HostRuntime) -> Result<(), Fail> {
    let mut damaged = BOATS;
    damaged[132] = 0xff; // of "É", the last
    let Some(boats) = boats(&damaged) else {
        return Ok(());
    };
    let before = found_hull(find(&boats, &ByName, &TextKey("Ann")));
    assert!(rt; before == Some(10), "the last is read for the first");
    match find(&boats, &ByName, &TextKey("Z")) {
        Err(error) => assert!(rt;
            matches!(error.error_kind, ErrorKind::InvalidUtf8 { .. }),
            "another error"
        ),
        Ok(_) => assert!(rt; false, "no error"),
    }
    Ok(())
}
