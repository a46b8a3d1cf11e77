//! Writes a person by the printed code of a schema, and reads it back in place: checked, and verified
//! once.
#![tactic(auto)]

use harbour::{Create, FILE_IDENTIFIER, Person, PersonFields, PersonRef, PersonView};
use planus::{Builder, read_root};
use planus_views::{Limits, verify_root};
use std::io;

fn main(rt: HostRuntime) -> io::Result<()> {
    let mut builder = Builder::new(rt.alloc())?;
    let pia = PersonFields {
        name: "Pia",
        age: 44,
    };
    let pia = Person::create(&mut builder, pia)?;
    let bytes = builder.finish(pia, Some(FILE_IDENTIFIER))?;

    let pia: planus::Result<PersonRef<'_>> = read_root(bytes);
    match pia {
        Ok(pia) => match (pia.name(), pia.age()) {
            (Ok(name), Ok(age)) => println!(rt; "{} bytes with {name}, aged {age}", bytes.len())?,
            (Err(error), _) | (_, Err(error)) => println!(rt; "{error}")?,
        },
        Err(error) => println!(rt; "{error}")?,
    }

    match verify_root::<PersonView<'_>>(bytes, Limits::default()) {
        Ok(pia) => {
            println!(rt; "verified: {}, aged {}", pia.name(), pia.age())?;
            println!(rt; "checked again: {:?}", pia.checked().age())
        }
        Err(fault) => println!(rt; "{fault:?}"),
    }
}
