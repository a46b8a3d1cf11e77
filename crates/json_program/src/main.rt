//! Packs the JSON of standard input as a buffer by a schema, and prints the JSON of that buffer.
#![tactic(auto)]

use planus::Caches;
use planus_dump::Schema as ShownSchema;
use planus_inspect::dump_schema;
use planus_json::{Layout, json};
use planus_pack::{PackOptions, binary};
use planus_resolve::{Schema, resolve};
use planus_syntax::parse_text;
use std::alloc::Global;
use std::io;
use std::io::Read;

const SCHEMA: &[u8] = b"
enum Color : ubyte { Red, Green, Blue = 7 }
enum Traits : ubyte (bit_flags) { Brave, Fast, Loud }
struct Point { x: float; y: float; }
struct Pose { at: Point; turns: [short:2]; color: Color; }
table Weapon { name: string (required); damage: short; }
table Mate { name: string (key); age: ubyte; }
table Trophy { rank: short = 3 (key); }
union Gear { Weapon, Pose, Note: string }
table Orc {
  name: string;
  hp: short = 100;
  mana: ulong;
  speed: double;
  color: Color = Blue;
  pose: Pose;
  path: [Point];
  bag: [ubyte];
  scores: [long];
  colors: [Color];
  words: [string];
  weapons: [Weapon];
  gear: Gear;
  spare: Gear;
  motto: Gear;
  is_boss: bool;
  left: Weapon;
  traits: Traits;
  kit: [Gear];
  crew: [Mate];
  trophies: [Trophy];
}
root_type Orc;
";

const INDENTED: Layout = Layout {
    compact: false,
    strict: false,
};

/// The meaning of the schema, and the index of its root.
fn meaning(alloc: Global) -> Option<(Schema, usize)> {
    let Ok(planus_syntax::Schema { declarations, .. }) = parse_text(alloc, SCHEMA) else {
        return None;
    };
    let mut files = Vec::new(alloc);
    files.push(declarations).ok()?;
    let schema = resolve(alloc, &files).ok()?;
    let root = schema.statements.root?;
    Some((schema, root))
}

fn print_json(rt: &HostRuntime, schema: &ShownSchema, bytes: &[u8]) -> io::Result<()> {
    match json(rt.alloc(), schema, bytes, INDENTED, 65536) {
        Ok(text) => println!(rt; "{text}"),
        Err(error) => println!(rt; "{error}"),
    }
}

fn main(rt: HostRuntime) -> io::Result<()> {
    let alloc = rt.alloc();
    let mut text = Vec::new(alloc);
    rt.reader().read_to_end(&mut text)?;
    let Some((schema, root)) = meaning(alloc) else {
        return println!(rt; "the schema has a fault");
    };
    let shown = dump_schema(alloc, &schema, root)?;
    match binary(
        alloc,
        &schema,
        root,
        &text,
        PackOptions::default(),
        Caches::all(),
        None,
        false,
    ) {
        Ok(bytes) => print_json(&rt, &shown, &bytes),
        Err(error) => println!(rt; "{error:?}"),
    }
}
