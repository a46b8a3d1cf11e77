ghost use Rattle.std.specs.Prelude.{replicate, ⊤};

use super::PlaceWord;
use planus_back::{Fill, Overwrite};
use planus_testing::{Test, check, check_bytes, check_distance, check_done, check_eq, in_builder};
use planus_write::{BuildError, Builder, Caches, Text};
use std::test::Fail;

type Done = Result<(), BuildError>;

#[derive(Drop)]
struct Repeated {
    byte: u8,
}

impl Fill for Repeated {
    ghost fits = { λ _ _ _. ⊤ };

    ghost encoding = { λ filler _ n. replicate n filler.byte };

    fn fill(&self, _place: u32, bytes: &mut [u8]) {
        bytes.fill(self.byte);
    }
}

impl Overwrite for Repeated {
    ghost fits = { λ _ _ _. ⊤ };

    ghost encoding = { λ writer _ n. replicate n writer.byte };

    fn overwrite(&self, _place: u32, bytes: &mut [u8]) {
        bytes.fill(self.byte);
    }
}

fn check_lengths(test: &Test<'_>, builder: &Builder, len: usize, room: usize, row: &str) {
    check_eq(test, &builder.len(), &len, row);
    check_eq(test, &builder.is_empty(), &(len == 0), row);
    check_eq(test, &builder.room(), &room, row);
}

fn check_room(test: &Test<'_>, builder: &mut Builder) -> Done {
    check_lengths(test, builder, 0, 64, "a builder with room");
    builder.write_with(5, 0, &Repeated { byte: 9 })?;
    check_lengths(test, builder, 5, 59, "after a write");
    builder.clear();
    check_lengths(test, builder, 0, 64, "after a clear");
    Ok(())
}

fn check_shown(test: &Test<'_>, builder: &Builder) {
    match format!(in test.alloc(); "{builder:?}") {
        Ok(text) => {
            let shown = text.as_str();
            let begins = "Builder { backing: Backing { inner: [7, 7, 7, 7, 7]";
            check(test, shown.starts_with(begins), shown);
        }
        Err(_) => check(test, false, "memory for a text"),
    }
}

fn check_last(test: &Test<'_>, builder: &mut Builder) -> Done {
    builder.write_over(5, 0, &Repeated { byte: 7 })?;
    let last = builder.current_offset::<Text>();
    check_distance(test, last.clone()?, 5, "a copy");
    check_distance(test, last.downcast(), 5, "of any type");
    check_distance(test, last, 5, "what is last");
    check_bytes(test, builder.as_slice(), &[7; 5], "its bytes");
    check_shown(test, builder);
    Ok(())
}

fn check_front(test: &Test<'_>, builder: &Builder, row: &str) {
    let front = builder.current_offset::<Text>().distance().to_le_bytes();
    check_eq(
        test,
        &builder.as_slice().first_chunk::<4>(),
        &Some(&front),
        row,
    );
}

// After more than 65535 bytes.
fn check_places(test: &Test<'_>, builder: &mut Builder) -> Done {
    builder.write_with(70001, 0, &Repeated { byte: 9 })?;
    builder.write_with(4, 0, &PlaceWord)?;
    check_front(test, builder, "a place that was filled in");
    builder.write_over(4, 0, &PlaceWord)?;
    check_front(test, builder, "a place that was written over");
    check_eq(test, &builder.len(), &70009, "all bytes");
    Ok(())
}

fn check_in_64_bytes(test: &Test<'_>, builder: &mut Builder) -> Done {
    check_room(test, builder)?;
    builder.clear();
    check_last(test, builder)
}

fn check_capacity(test: &Test<'_>) {
    match Builder::with_capacity(test.alloc(), 64) {
        Ok(mut builder) => check_done(test, check_in_64_bytes(test, &mut builder), "64 bytes"),
        Err(error) => check_done(test, Err(error), "64 bytes"),
    }
}

fn check_much_room(test: &Test<'_>, room: usize) {
    match Builder::with_capacity(test.alloc(), room) {
        Ok(builder) => check(test, builder.room() >= room, "room for 16 mebibytes"),
        Err(error) => check_done(test, Err(error), "room for 16 mebibytes"),
    }
}

#[test]
fn writes(rt: HostRuntime) -> Result<(), Fail> {
    let test = Test::new(&rt);
    check_capacity(&test);
    in_builder(&test, Caches::all(), check_places);
    check_much_room(&test, 16777259);
    test.end()
}
