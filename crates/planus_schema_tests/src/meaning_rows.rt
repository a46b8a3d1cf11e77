//! Schemas, what they mean, and whether `flatc` takes them.
//!
//! Rows are apart by an empty line: a schema, after `=>` its facts, and before `+` a file `a.fbs`
//! that it includes. Each was given to `flatc -b --schema` of flatbuffers 2.0.8, and was taken
//! where that ended with status 0. The facts are what `facts.cpp` prints of the binary schema.
//! `rows.py` makes all this again, and tells where a row says anything else.

/// Taken by both, with the facts: structs.
pub const STRUCTS: &str = "\
struct P { x: int; y: int; }
=> P size 8; P align 4; P.x at 0; P.x of int; P.y at 4; P.y of int

struct P { a: byte; b: int; c: short; }
=> P size 12; P align 4; P.a at 0; P.a of byte; P.b at 4; P.b of int; P.c at 8; P.c of short

struct P { a: long; b: byte; }
=> P size 16; P align 8; P.a at 0; P.a of long; P.b at 8; P.b of byte

struct A { x: byte; y: short; } struct B { a: A; z: ulong; b: A; }
=> A size 4; A align 2; A.x at 0; A.x of byte; A.y at 2; A.y of short; B size 24; B align 8; B.a \
    at 0; B.a of A; B.b at 16; B.b of A; B.z at 8; B.z of ulong

struct P (force_align: 16) { a: float; b: float; c: float; }
=> P size 16; P align 16; P.a at 0; P.a of float; P.b at 4; P.b of float; P.c at 8; P.c of float

struct A (force_align: 8) { a: short; } struct B { x: byte; a: A; y: byte; }
=> A size 8; A align 8; A.a at 0; A.a of short; B size 24; B align 8; B.a at 8; B.a of A; B.x at \
    0; B.x of byte; B.y at 16; B.y of byte

enum E: ushort { A, B } struct P { a: byte; e: E; b: byte; }
=> P size 6; P align 2; P.a at 0; P.a of byte; P.b at 4; P.b of byte; P.e at 2; P.e of E; E of \
    ushort; E.A is 0; E.B is 1

struct P { a: bool; b: double; c: bool; }
=> P size 24; P align 8; P.a at 0; P.a of bool; P.b at 8; P.b of double; P.c at 16; P.c of bool

struct P { x: float; y: float; } table T { p: P; n: int; q: P; }
=> P size 8; P align 4; P.x at 0; P.x of float; P.y at 4; P.y of float; T.n slot 1; T.n of int; \
    T.p slot 0; T.p of P; T.q slot 2; T.q of P

struct P { x: float; } table T { p: [P]; }
=> P size 4; P align 4; P.x at 0; P.x of float; T.p slot 0; T.p of [P]

struct P { x: int; } table T { p: P (required); }
=> P size 4; P align 4; P.x at 0; P.x of int; T.p slot 0; T.p of P; T.p has required

struct P { k: uint (key); v: int; }
=> P size 8; P align 4; P.k at 0; P.k of uint; P.v at 4; P.v of int

struct P { x: int (id: 0); }
=> P size 4; P align 4; P.x at 0; P.x of int

enum E: long { A = -1, B } struct P { b: bool; e: E; } struct Q { p: P; c: byte; } table T { q: \
    Q; }
=> P size 16; P align 8; P.b at 0; P.b of bool; P.e at 8; P.e of E; Q size 24; Q align 8; Q.c at \
    16; Q.c of byte; Q.p at 0; Q.p of P; T.q slot 0; T.q of Q; E of long; E.A is -1; E.B is 0

struct P (force_align: 32) { a: long; b: long; c: short; }
=> P size 32; P align 32; P.a at 0; P.a of long; P.b at 8; P.b of long; P.c at 16; P.c of short

struct P (force_align: 4) { x: int; y: byte; }
=> P size 8; P align 4; P.x at 0; P.x of int; P.y at 4; P.y of byte

struct P (native_type: \"N\") { x: int; }
=> P size 4; P align 4; P.x at 0; P.x of int

struct P { x: byte; y: ushort; z: byte; } table T { p: P; v: [P]; }
=> P size 6; P align 2; P.x at 0; P.x of byte; P.y at 2; P.y of ushort; P.z at 4; P.z of byte; \
    T.p slot 0; T.p of P; T.v slot 1; T.v of [P]

struct P { a: int8; b: float64; c: uint16; }
=> P size 24; P align 8; P.a at 0; P.a of byte; P.b at 8; P.b of double; P.c at 16; P.c of \
    ushort

struct A { a: long; b: long; c: long; d: long; } struct B { a: A; b: A; c: A; d: A; } struct C { \
    x: byte; b: B; }
=> A size 32; A align 8; A.a at 0; A.a of long; A.b at 8; A.b of long; A.c at 16; A.c of long; \
    A.d at 24; A.d of long; B size 128; B align 8; B.a at 0; B.a of A; B.b at 32; B.b of A; B.c \
    at 64; B.c of A; B.d at 96; B.d of A; C size 136; C align 8; C.b at 8; C.b of B; C.x at 0; \
    C.x of byte

table T { p: P; } struct P { x: int; }
=> P size 4; P align 4; P.x at 0; P.x of int; T.p slot 0; T.p of P

struct P { a: byte; b: [ushort:3]; c: byte; }
=> P size 10; P align 2; P.a at 0; P.a of byte; P.b at 2; P.b of [ushort:3]; P.c at 8; P.c of byte

struct A { x: byte; y: short; } struct P { a: [A:2]; b: [ulong:0x10]; c: [byte:+3]; d: \
    [double:01]; }
=> A size 4; A align 2; A.x at 0; A.x of byte; A.y at 2; A.y of short; P size 152; P align 8; P.a \
    at 0; P.a of [A:2]; P.b at 8; P.b of [ulong:16]; P.c at 136; P.c of [byte:3]; P.d at 144; P.d \
    of [double:1]

enum E: ushort { A, B } struct P { a: bool; e: [E:5]; v: [bool:3]; } table T { p: P; q: [P]; }
=> P size 16; P align 2; P.a at 0; P.a of bool; P.e at 2; P.e of [E:5]; P.v at 12; P.v of \
    [bool:3]; T.p slot 0; T.p of P; T.q slot 1; T.q of [P]; E of ushort; E.A is 0; E.B is 1

struct P { a: [ubyte:65535]; }
=> P size 65535; P align 1; P.a at 0; P.a of [ubyte:65535]

struct A (force_align: 16) { x: [float:3]; } struct P { a: [A:2]; b: [int:1]; }
=> A size 16; A align 16; A.x at 0; A.x of [float:3]; P size 48; P align 16; P.a at 0; P.a of \
    [A:2]; P.b at 32; P.b of [int:1]";

/// Taken by both, with the facts: enums.
pub const ENUMS: &str = "\
enum A: byte { X = -128, Y = 127 } enum B: ubyte { X, Y = 255 } enum C: short { X = -32768, Y = \
    32767 } enum D: ushort { X, Y = 65535 }
=> A of byte; A.X is -128; A.Y is 127; B of ubyte; B.X is 0; B.Y is 255; C of short; C.X is \
    -32768; C.Y is 32767; D of ushort; D.X is 0; D.Y is 65535

enum A: int { X = -2147483648, Y = 2147483647 } enum B: uint { X, Y = 4294967295 } enum C: long \
    { X = -9223372036854775808, Y = 9223372036854775807 } enum D: ulong { X, Y = \
    18446744073709551615 }
=> A of int; A.X is -2147483648; A.Y is 2147483647; B of uint; B.X is 0; B.Y is 4294967295; C of \
    long; C.X is -9223372036854775808; C.Y is 9223372036854775807; D of ulong; D.X is 0; D.Y is \
    18446744073709551615

enum E: int { A = 3, B, C = 10, D }
=> E of int; E.A is 3; E.B is 4; E.C is 10; E.D is 11

enum E: uint { A = 0x10, B, C = 0xfF }
=> E of uint; E.A is 16; E.B is 17; E.C is 255

namespace n; enum F: short (bit_flags) { A, B } namespace n.m; enum E: F { A, B = 7 } enum G: \
    n.m.E (bit_flags) { A, B } struct S { a: byte; e: E; } table T { e: E = B; g: G = 9; }
=> n.m.S size 4; n.m.S align 2; n.m.S.a at 0; n.m.S.a of byte; n.m.S.e at 2; n.m.S.e of n.m.E; \
    n.m.T.e slot 0; n.m.T.e of n.m.E; n.m.T.e default 7; n.m.T.g slot 1; n.m.T.g of n.m.G; \
    n.m.T.g default 9; n.F of short; n.F.A is 1; n.F.B is 2; n.m.E of short; n.m.E.A is 0; \
    n.m.E.B is 7; n.m.G of short; n.m.G.A is 1; n.m.G.B is 2

enum E: int8 { A = -3, B, C, D }
=> E of byte; E.A is -3; E.B is -2; E.C is -1; E.D is 0

enum F: ubyte (bit_flags) { A, B, C = 7 }
=> F of ubyte; F.A is 1; F.B is 2; F.C is 128

enum F: ulong (bit_flags) { A, B = 63 }
=> F of ulong; F.A is 1; F.B is 9223372036854775808

enum E: byte { A = 1, B = 5 } table T { e: E = B; }
=> T.e slot 0; T.e of E; T.e default 5; E of byte; E.A is 1; E.B is 5

enum E: byte { A = 1, B = 5 } table T { e: E = 5; }
=> T.e slot 0; T.e of E; T.e default 5; E of byte; E.A is 1; E.B is 5

enum E: byte { A, B } table T { e: E; }
=> T.e slot 0; T.e of E; E of byte; E.A is 0; E.B is 1

enum F: ubyte (bit_flags) { A, B, C } table T { f: F = B; }
=> T.f slot 0; T.f of F; T.f default 2; F of ubyte; F.A is 1; F.B is 2; F.C is 4

enum E: byte { A } table T { e: E = null; }
=> T.e slot 0; T.e of E; T.e has null; E of byte; E.A is 0

enum E: byte { X } table A {} table T { a: [byte]; b: [bool]; c: [double]; d: [string]; e: [A]; \
    f: [E]; }
=> T.a slot 0; T.a of [byte]; T.b slot 1; T.b of [bool]; T.c slot 2; T.c of [double]; T.d slot \
    3; T.d of [string]; T.e slot 4; T.e of [A]; T.f slot 5; T.f of [E]; E of byte; E.X is 0

enum E: byte { A = 3, B = 2 }
=> E of byte; E.B is 2; E.A is 3

enum F: byte (bit_flags) { A, B = 6 }
=> F of byte; F.A is 1; F.B is 64

enum E: short { A = -7, B } table T { e: E = A; }
=> T.e slot 0; T.e of E; T.e default -7; E of short; E.A is -7; E.B is -6

enum F: ubyte (bit_flags) { A, B, C } table T { f: F = 5; }
=> T.f slot 0; T.f of F; T.f default 5; F of ubyte; F.A is 1; F.B is 2; F.C is 4

enum F: ubyte (bit_flags) { A, B } table T { f: F; }
=> T.f slot 0; T.f of F; F of ubyte; F.A is 1; F.B is 2

enum E: byte { A } table T { e: E (key); }
=> T.e slot 0; T.e of E; T.e has key; E of byte; E.A is 0

table A {} enum E: byte { A, E }
=> E of byte; E.A is 0; E.E is 1

enum E: byte {
  /// First.
  A,
  B
}
=> E of byte; E.A is 0; E.B is 1

enum E: uint16 { A, B = 500 }
=> E of ushort; E.A is 0; E.B is 500

enum F: ubyte (bit_flags) { A, B, C } table T { f: F = \"A C\"; }
=> T.f slot 0; T.f of F; T.f default 5; F of ubyte; F.A is 1; F.B is 2; F.C is 4";

/// Taken by both, with the facts: unions.
pub const UNIONS: &str = "\
table A {} table B {} union U { A, B } table T { x: int; u: U; y: int; }
=> T.u slot 2; T.u of U; T.u_type slot 1; T.u_type of ubyte; T.x slot 0; T.x of int; T.y slot 3; \
    T.y of int; U.NONE is 0; U.A is 1; U.A of A; U.B is 2; U.B of B

table A {} union U { A } table T { x: int; u: [U]; y: int; }
=> T.u slot 2; T.u of [U]; T.u_type slot 1; T.u_type of [ubyte]; T.x slot 0; T.x of int; T.y \
    slot 3; T.y of int; U.NONE is 0; U.A is 1; U.A of A

table A {} union U { First: A, Second: A }
=> U.NONE is 0; U.First is 1; U.First of A; U.Second is 2; U.Second of A

table A {} table B {} union U { A = 3, B }
=> U.NONE is 0; U.A is 3; U.A of A; U.B is 4; U.B of B

table A {} union U { A } table T { a: int (id: 2); u: U (id: 1); }
=> T.a slot 2; T.a of int; T.u slot 1; T.u of U; T.u_type slot 0; T.u_type of ubyte; U.NONE is \
    0; U.A is 1; U.A of A

table A {} union U { A } table T { a: int (id: 0); u: [U] (id: 2); }
=> T.a slot 0; T.a of int; T.u slot 2; T.u of [U]; T.u_type slot 1; T.u_type of [ubyte]; U.NONE \
    is 0; U.A is 1; U.A of A

table A {} union U { A } table T { u: U (required); }
=> T.u slot 1; T.u of U; T.u has required; T.u_type slot 0; T.u_type of ubyte; U.NONE is 0; U.A \
    is 1; U.A of A

table A {} table B {} union U { A = 3, B = 2 }
=> U.NONE is 0; U.B is 2; U.B of B; U.A is 3; U.A of A

table A {} union U { X: A = 254, Y: A }
=> U.NONE is 0; U.X is 254; U.X of A; U.Y is 255; U.Y of A

table A {} union U { A } table T { a: U; a_kind: U; }
=> T.a slot 1; T.a of U; T.a_kind slot 3; T.a_kind of U; T.a_kind_type slot 2; T.a_kind_type of \
    ubyte; T.a_type slot 0; T.a_type of ubyte; U.NONE is 0; U.A is 1; U.A of A

table A {} union U { A } table T { u: U (id: 2); a: int (id: 0); }
=> T.a slot 0; T.a of int; T.u slot 2; T.u of U; T.u_type slot 1; T.u_type of ubyte; U.NONE is \
    0; U.A is 1; U.A of A

table A {} union U { A } table T { u: U (deprecated); }
=> T.u slot 1; T.u of U; T.u has deprecated; T.u_type slot 0; T.u_type of ubyte; T.u_type has \
    deprecated; U.NONE is 0; U.A is 1; U.A of A

table A {} union U { A } table T { u: [U] (deprecated, id: 1); }
=> T.u slot 1; T.u of [U]; T.u has deprecated; T.u_type slot 0; T.u_type of [ubyte]; T.u_type \
    has deprecated; U.NONE is 0; U.A is 1; U.A of A

table A {} union U { B: A } table B {}
=> U.NONE is 0; U.B is 1; U.B of A

union U { A } table A {}
=> U.NONE is 0; U.A is 1; U.A of A";

/// Taken by both, with the facts: names.
pub const NAMESPACES: &str = "\
namespace a.b; table T { x: U; } table U { y: int; } namespace a; table V { t: b.T; } namespace; \
    table W { t: a.b.T; v: a.V; }
=> W.t slot 0; W.t of a.b.T; W.v slot 1; W.v of a.V; a.V.t slot 0; a.V.t of a.b.T; a.b.T.x slot \
    0; a.b.T.x of a.b.U; a.b.U.y slot 0; a.b.U.y of int

table T { outer: int; } namespace n; table T { x: int; y: int; } table V { t: T; }
=> T.outer slot 0; T.outer of int; n.T.x slot 0; n.T.x of int; n.T.y slot 1; n.T.y of int; n.V.t \
    slot 0; n.V.t of n.T

namespace a; table X { p: int; } namespace a.b.c; table V { x: X; }
=> a.X.p slot 0; a.X.p of int; a.b.c.V.x slot 0; a.b.c.V.x of a.X

namespace n; table T { x: int; } root_type n.T;
=> n.T.x slot 0; n.T.x of int; schema root n.T

namespace a; enum E: byte { A } namespace b; table T { e: a.E = A; }
=> b.T.e slot 0; b.T.e of a.E; a.E of byte; a.E.A is 0

namespace n; table A {} union U { A } table T { u: U; v: [U]; }
=> n.T.u slot 1; n.T.u of n.U; n.T.u_type slot 0; n.T.u_type of ubyte; n.T.v slot 3; n.T.v of \
    [n.U]; n.T.v_type slot 2; n.T.v_type of [ubyte]; n.U.NONE is 0; n.U.A is 1; n.U.A of n.A

namespace n; table A {} namespace m; table A {} namespace n; table B { a: A; b: m.A; }
=> n.B.a slot 0; n.B.a of n.A; n.B.b slot 1; n.B.b of m.A

namespace a.b; table T {} namespace a.c; table V { t: b.T; }
=> a.c.V.t slot 0; a.c.V.t of a.b.T

namespace a; table T {} namespace b; table T {}
=>

namespace n; table A {} namespace; table T { a: [ubyte] (nested_flatbuffer: \"n.A\"); }
=> T.a slot 0; T.a of [ubyte]

namespace n; table A {} namespace; rpc_service S { F(n.A): n.A; }
=>

namespace game; enum Kind: ubyte { Orc, Elf } struct At { x: float; y: float; kind: Kind; } \
    table Item { name: string (required); weight: short = 10; } union Gear { Item, Spare: Item } \
    table Unit { at: At; kind: Kind = Elf; gear: Gear; bag: [Gear]; items: [Item]; path: [At]; \
    raw: [ubyte] (nested_flatbuffer: \"Item\"); old: bool (deprecated); } root_type Unit; \
    file_identifier \"UNIT\"; file_extension \"unit\";
=> game.At size 12; game.At align 4; game.At.kind at 8; game.At.kind of game.Kind; game.At.x at \
    0; game.At.x of float; game.At.y at 4; game.At.y of float; game.Item.name slot 0; \
    game.Item.name of string; game.Item.name has required; game.Item.weight slot 1; \
    game.Item.weight of short; game.Item.weight default 10; game.Unit.at slot 0; game.Unit.at of \
    game.At; game.Unit.bag slot 5; game.Unit.bag of [game.Gear]; game.Unit.bag_type slot 4; \
    game.Unit.bag_type of [ubyte]; game.Unit.gear slot 3; game.Unit.gear of game.Gear; \
    game.Unit.gear_type slot 2; game.Unit.gear_type of ubyte; game.Unit.items slot 6; \
    game.Unit.items of [game.Item]; game.Unit.kind slot 1; game.Unit.kind of game.Kind; \
    game.Unit.kind default 1; game.Unit.old slot 9; game.Unit.old of bool; game.Unit.old has \
    deprecated; game.Unit.path slot 7; game.Unit.path of [game.At]; game.Unit.raw slot 8; \
    game.Unit.raw of [ubyte]; game.Gear.NONE is 0; game.Gear.Item is 1; game.Gear.Item of \
    game.Item; game.Gear.Spare is 2; game.Gear.Spare of game.Item; game.Kind of ubyte; \
    game.Kind.Orc is 0; game.Kind.Elf is 1; schema root game.Unit; schema identifier UNIT; \
    schema extension unit

namespace n; table T {} namespace m; root_type n.T;
=> schema root n.T

namespace one.two.three.four; table T { x: one.two.three.four.T; }
=> one.two.three.four.T.x slot 0; one.two.three.four.T.x of one.two.three.four.T";

/// Taken by both, with the facts: statements, attributes and services.
pub const STATEMENTS: &str = "\
table T { x: int; } root_type T;
=> T.x slot 0; T.x of int; schema root T

table T {} root_type T; file_identifier \"ABCD\"; file_extension \"bin\";
=> schema root T; schema identifier ABCD; schema extension bin

attribute \"mine\"; table T { x: int (mine); y: int (mine: 3); }
=> T.x slot 0; T.x of int; T.y slot 1; T.y of int

table A {} table B {} rpc_service S { Call(A): B; Stream(A): B (streaming: \"server\"); }
=>

table A {} table B {} root_type A; root_type B;
=> schema root B

table T {} file_identifier \"ABCD\";
=> schema identifier ABCD

table A {} rpc_service S { F(A): A (idempotent, streaming: \"bidi\"); }
=>

attribute \"mine\"; enum E: byte (mine) { A }
=> E of byte; E.A is 0

attribute \"mine\"; attribute \"mine\"; table T { x: int (mine); }
=> T.x slot 0; T.x of int

attribute \"priority\"; table T (original_order) { x: ulong (hash: \"fnv1_64\", cpp_type: \
    \"X\"); y: int (priority: 1); s: string (shared); v: [ubyte] (flexbuffer); }
=> T.s slot 2; T.s of string; T.v slot 3; T.v of [ubyte]; T.x slot 0; T.x of ulong; T.y slot 1; \
    T.y of int

table T {} root_type T; file_identifier '\\x41B\\u0043\\\"'; file_extension \
    \"\\u00e9\\ud83d\\ude00\\\\'\\/\\xE2\\x82\\xac\";
=> schema root T; schema identifier ABC\"; schema extension é😀\\'/€

table T {} root_type T; file_identifier \"ABCD\"; file_identifier \"EFGH\";
=> schema root T; schema identifier EFGH";

/// Taken by both, with the facts: defaults.
pub const DEFAULTS: &str = "\
table T { a: int = 5; b: int = -5; c: ubyte = 255; d: long = -9223372036854775808; e: ulong = \
    9223372036854775807; }
=> T.a slot 0; T.a of int; T.a default 5; T.b slot 1; T.b of int; T.b default -5; T.c slot 2; \
    T.c of ubyte; T.c default 255; T.d slot 3; T.d of long; T.d default -9223372036854775808; \
    T.e slot 4; T.e of ulong; T.e default 9223372036854775807

table T { a: int = 0x1F; b: uint = 0xffffffff; }
=> T.a slot 0; T.a of int; T.a default 31; T.b slot 1; T.b of uint; T.b default 4294967295

table T { a: bool = true; b: bool = false; c: bool = 1; }
=> T.a slot 0; T.a of bool; T.a default 1; T.b slot 1; T.b of bool; T.c slot 2; T.c of bool; T.c \
    default 1

table T { a: float = 1.5; b: double = -2e3; c: float = nan; d: double = inf; e: double = -inf; \
    f: float = 3; }
=> T.a slot 0; T.a of float; T.b slot 1; T.b of double; T.c slot 2; T.c of float; T.d slot 3; \
    T.d of double; T.e slot 4; T.e of double; T.f slot 5; T.f of float

table T { a: int = null; b: bool = null; c: float = null; }
=> T.a slot 0; T.a of int; T.a has null; T.b slot 1; T.b of bool; T.b has null; T.c slot 2; T.c \
    of float; T.c has null

table T { x: int = -0x10; }
=> T.x slot 0; T.x of int; T.x default -16

table T { a: byte = -128; b: short = -32768; c: int = -2147483648; }
=> T.a slot 0; T.a of byte; T.a default -128; T.b slot 1; T.b of short; T.b default -32768; T.c \
    slot 2; T.c of int; T.c default -2147483648

table T { a: byte = 127; b: ushort = 65535; c: uint = 4294967295; }
=> T.a slot 0; T.a of byte; T.a default 127; T.b slot 1; T.b of ushort; T.b default 65535; T.c \
    slot 2; T.c of uint; T.c default 4294967295

table T { a: uint8 = 200; b: int64 = -1; }
=> T.a slot 0; T.a of ubyte; T.a default 200; T.b slot 1; T.b of long; T.b default -1

table T { b: bool = false; c: bool = 0; }
=> T.b slot 0; T.b of bool; T.c slot 1; T.c of bool

enum E: ubyte { A, B } enum F: ubyte (bit_flags) { X, Y } table T { a: int = \"5\"; b: E = \
    \"B\"; c: F = \"X Y\"; d: bool = \"true\"; e: int = \"null\"; f: int = \"-0x10\"; g: E = \
    \"1\"; h: F = \"2\"; }
=> T.a slot 0; T.a of int; T.a default 5; T.b slot 1; T.b of E; T.b default 1; T.c slot 2; T.c of \
    F; T.c default 3; T.d slot 3; T.d of bool; T.d default 1; T.e slot 4; T.e of int; T.e has \
    null; T.f slot 5; T.f of int; T.f default -16; T.g slot 6; T.g of E; T.g default 1; T.h slot \
    7; T.h of F; T.h default 2; E of ubyte; E.A is 0; E.B is 1; F of ubyte; F.X is 1; F.Y is 2";

/// Taken by both, with the facts: fields of tables.
pub const FIELDS: &str = "\
attribute \"a\\x62\"; table A { x: int (ab, \"\\x6bey\"); y: int (\"\\u0064eprecated\"); }
=> A.x slot 0; A.x of int; A.x has key; A.y slot 1; A.y of int; A.y has deprecated

table T {\r
  x: int;\r
}\r
=> T.x slot 0; T.x of int

table T { a: byte; b: ubyte; c: short; d: ushort; e: int; f: uint; g: long; h: ulong; i: float; \
    j: double; k: bool; }
=> T.a slot 0; T.a of byte; T.b slot 1; T.b of ubyte; T.c slot 2; T.c of short; T.d slot 3; T.d \
    of ushort; T.e slot 4; T.e of int; T.f slot 5; T.f of uint; T.g slot 6; T.g of long; T.h \
    slot 7; T.h of ulong; T.i slot 8; T.i of float; T.j slot 9; T.j of double; T.k slot 10; T.k \
    of bool

table T { a: int8; b: uint8; c: int16; d: uint16; e: int32; f: uint32; g: int64; h: uint64; i: \
    float32; j: float64; }
=> T.a slot 0; T.a of byte; T.b slot 1; T.b of ubyte; T.c slot 2; T.c of short; T.d slot 3; T.d \
    of ushort; T.e slot 4; T.e of int; T.f slot 5; T.f of uint; T.g slot 6; T.g of long; T.h \
    slot 7; T.h of ulong; T.i slot 8; T.i of float; T.j slot 9; T.j of double

table T { a: int; b: string; c: [int]; d: T; }
=> T.a slot 0; T.a of int; T.b slot 1; T.b of string; T.c slot 2; T.c of [int]; T.d slot 3; T.d \
    of T

table T { a: int (id: \"1\"); b: int (id: \"0x0\"); }
=> T.a slot 1; T.a of int; T.b slot 0; T.b of int

table T { a: int (id: 2); b: int (id: 0); c: int (id: 1); }
=> T.a slot 2; T.a of int; T.b slot 0; T.b of int; T.c slot 1; T.c of int

table T { a: int (deprecated); b: int; }
=> T.a slot 0; T.a of int; T.a has deprecated; T.b slot 1; T.b of int

table A {} table T { a: string (required); b: [int] (required); c: A (required); }
=> T.a slot 0; T.a of string; T.a has required; T.b slot 1; T.b of [int]; T.b has required; T.c \
    slot 2; T.c of A; T.c has required

table T { v: int; k: uint (key); }
=> T.k slot 1; T.k of uint; T.k has key; T.v slot 0; T.v of int

table A { x: int; } table T { a: [ubyte] (nested_flatbuffer: \"A\"); }
=> A.x slot 0; A.x of int; T.a slot 0; T.a of [ubyte]

table A { b: B; } table B { a: A; }
=> A.b slot 0; A.b of B; B.a slot 0; B.a of A

table T { t: T; ts: [T]; }
=> T.t slot 0; T.t of T; T.ts slot 1; T.ts of [T]

table T {}
=>

/// A table.
table T {
/// A field.
x: int; }
=> T.x slot 0; T.x of int

table T (force_align: 8) { x: int; }
=> T.x slot 0; T.x of int

table T { a: int (key, deprecated); }
=> T.a slot 0; T.a of int; T.a has deprecated; T.a has key

table int {}
=>

table T { table: int; }
=> T.table slot 0; T.table of int

table T { s: string (deprecated, required); }
=> T.s slot 0; T.s of string; T.s has required; T.s has deprecated

table T { x: int (id: 0, id: 0); }
=> T.x slot 0; T.x of int

table T { s: string (required, required); }
=> T.s slot 0; T.s of string; T.s has required

table T { s: string (key, required); }
=> T.s slot 0; T.s of string; T.s has required; T.s has key

table T { a: [ubyte] (nested_flatbuffer: \"T\"); }
=> T.a slot 0; T.a of [ubyte]

table T (private) { x: int; }
=> T.x slot 0; T.x of int

table T { a: float; b: double; c: float32; d: float64; }
=> T.a slot 0; T.a of float; T.b slot 1; T.b of double; T.c slot 2; T.c of float; T.d slot 3; \
    T.d of double

table T { a: [string] (required); }
=> T.a slot 0; T.a of [string]; T.a has required

table T { a: int (id: 0x0); }
=> T.a slot 0; T.a of int

table T { a: int (id: 1, deprecated); b: int (id: 0); }
=> T.a slot 1; T.a of int; T.a has deprecated; T.b slot 0; T.b of int

table T { a: [ubyte] (nested_flatbuffer: \"A\"); } table A {}
=> T.a slot 0; T.a of [ubyte]";

/// Taken by both, with the facts: what is included.
pub const INCLUDED: &str = "\
table A { x: int; }
+ include \"a.fbs\"; table B { a: A; }
=> A.x slot 0; A.x of int; B.a slot 0; B.a of A

namespace n; struct P { x: short; }
+ include \"a.fbs\"; struct Q { p: n.P; y: byte; } table T { p: n.P; q: Q; }
=> Q size 4; Q align 2; Q.p at 0; Q.p of n.P; Q.y at 2; Q.y of byte; T.p slot 0; T.p of n.P; T.q \
    slot 1; T.q of Q; n.P size 2; n.P align 2; n.P.x at 0; n.P.x of short

enum E: byte { A = 3 }
+ include \"a.fbs\"; namespace m; table T { e: E = A; }
=> m.T.e slot 0; m.T.e of E; m.T.e default 3; E of byte; E.A is 3

namespace n; table A {} union U { A }
+ include \"a.fbs\"; namespace n; table T { u: U; }
=> n.T.u slot 1; n.T.u of n.U; n.T.u_type slot 0; n.T.u_type of ubyte; n.U.NONE is 0; n.U.A is \
    1; n.U.A of n.A

attribute \"mine\"; table A {}
+ include \"a.fbs\"; table T { x: int (mine); } root_type A;
=> T.x slot 0; T.x of int; schema root A

table A {} root_type A; file_identifier \"AAAA\"; file_extension \"a\";
+ include \"a.fbs\"; table B {} root_type B; file_identifier \"BBBB\"; file_extension \"b\";
=> schema root B; schema identifier BBBB; schema extension b

table A {} root_type A; file_identifier \"AAAA\"; file_extension \"a\";
+ include \"a.fbs\"; table B { x: int; }
=> B.x slot 0; B.x of int

+ table T { k: string (key); v: int; }
=> T.k slot 0; T.k of string; T.k has required; T.k has key; T.v slot 1; T.v of int";

/// As `INCLUDED`, with other facts than those of `flatc`, which are written by hand.
pub const SETTLED_HERE: &str = "\
+ namespace n; table A {} namespace m; union U { n.A }
=> m.U.NONE is 0; m.U.n.A is 1; m.U.n.A of n.A

+ table T { b: bool = 2; }
=> T.b slot 0; T.b of bool; T.b default 1";

/// Refused by `flatc` alone. The facts are written by hand.
pub const TAKEN_HERE: &str = "\
enum E: byte { A = 1, B = 5 } table T { e: E = E.B; }
=> T.e slot 0; T.e of E; T.e default 5; E of byte; E.A is 1; E.B is 5

table T { s: string = \"abc\"; }
=> T.s slot 0; T.s of string

table T { s: string = \"\"; }
=> T.s slot 0; T.s of string

table T { v: [int] = []; }
=> T.v slot 0; T.v of [int]

table T { s: string = \"a\" (required); }
=> T.s slot 0; T.s of string; T.s has required

root_type T; table T {}
=> schema root T

table T { x: int (mine); } attribute \"mine\";
=> T.x slot 0; T.x of int

enum E: byte { A = 1 } struct P { e: E; }
=> E of byte; E.A is 1; P size 1; P align 1; P.e at 0; P.e of E

// nothing
=>

=>

struct P { P: int; }
=> P size 4; P align 4; P.P at 0; P.P of int

table T { e: E; } enum E: byte { A }
=> T.e slot 0; T.e of E; E of byte; E.A is 0

table T { u: U; } table A {} union U { A }
=> T.u slot 1; T.u of U; T.u_type slot 0; T.u_type of ubyte; U.NONE is 0; U.A is 1; U.A of A

table T { v: [ubyte] (cpp_type: \"V\"); }
=> T.v slot 0; T.v of [ubyte]";
