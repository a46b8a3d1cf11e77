//! The module for Python, over the calls for C.

use crate::at::At;
use crate::context::Context;
use crate::foreign_caller::Caller;
use crate::foreign_forms::{FieldForms, Forms};
use crate::foreign_words::Language;
use crate::printer::Printer;
use planus_schema::{Base, Body, Enum, Table, TableField};

const HEAD: &str = "\
\"\"\"Classes over buffers of `$c`, by the calls of §.h.

`load` loads the library of these calls. Where it isn't called, the library is that whose path the
environment's ¦_LIBRARY has. A table is `TABLE(buffer)`, or with the position of the reference that
leads to it, and its fields are properties: None where one is absent. No byte and no position does
harm: what can't be read raises `¤`.
\"\"\"
";

const READERS: &str = r#"
import collections.abc as _abc
import ctypes as _c
import enum as _enum
import os as _os

_library = None

_TEXTS = (
    "ok",
    "absent",
    "an offset leads out of the buffer",
    "a length leads out of the buffer",
    "the vectors of a union have different lengths",
    "an enum has no such value",
    "a union has no such tag",
    "a vtable has a wrong length",
    "a string isn't UTF-8",
    "a required field is missing",
    "a string doesn't end in a zero byte",
    "tables lead to tables beyond the limit",
    "more tables are reached than the limit",
)


class ¤(Exception):
    """Why nothing is read."""

    def __init__(self, status):
        super().__init__(_TEXTS[status] if status < len(_TEXTS) else "no status")
        self.status = status


class _Span(_c.Structure):
    _fields_ = [("at", _c.c_size_t), ("len", _c.c_size_t)]


class _Member(_c.Structure):
    _fields_ = [("at", _c.c_size_t), ("tag", _c.c_uint8)]


def load(path):
    """Loads the library of the calls."""
    global _library
    _library = _c.CDLL(_os.fspath(path))


def _call(name):
    if _library is None:
        load(_os.environ["¦_LIBRARY"])
    return getattr(_library, name)


def _status(name, buffer, position, out, *index):
    call = _call(name)
    call.restype = _c.c_uint32
    numbers = [_c.c_size_t(number) for number in (len(buffer), position, *index)]
    return call(_c.c_char_p(buffer), *numbers, _c.byref(out))


def _maybe(name, buffer, position, reader):
    out = reader.kind()
    status = _status(name, buffer, position, out)
    if status > 1:
        raise ¤(status)
    return None if status == 1 else reader.of(buffer, out)


def _surely(name, buffer, position, reader):
    found = _maybe(name, buffer, position, reader)
    if found is None:
        raise ¤(9)
    return found


class _Number:
    """Each reader has the type that a call stores, and the size of an item of a vector in bytes."""

    def __init__(self, kind):
        self.kind = kind
        self.size = _c.sizeof(kind)

    def of(self, buffer, out):
        return out.value

    def at(self, buffer, position):
        return self.kind.from_buffer_copy(buffer, position).value


class _Enum:
    def __init__(self, result, kind, name):
        self.result = result
        self.kind = kind
        self.size = _c.sizeof(kind)
        self.name = name

    def of(self, buffer, out):
        return self.result(out.value)

    def at(self, buffer, position):
        return _surely(self.name, buffer, position, self)


class _Struct:
    def __init__(self, kind, name):
        self.kind = kind
        self.size = _c.sizeof(kind)
        self.name = name

    def of(self, buffer, out):
        return out

    def at(self, buffer, position):
        return _surely(self.name + "_at", buffer, position, self)

    def behind(self, buffer, position):
        return _surely(self.name + "_behind", buffer, position, self)


class _Text:
    kind = _Span
    size = 4

    def of(self, buffer, out):
        return buffer[out.at : out.at + out.len].decode()

    def at(self, buffer, position):
        return _surely("§_string_at", buffer, position, self)

    behind = at


class _Bytes:
    kind = _Span

    def of(self, buffer, out):
        return buffer[out.at : out.at + out.len]


class _Table:
    kind = _c.c_size_t
    size = 4

    def __init__(self, result):
        self.result = result

    def of(self, buffer, out):
        return self.at(buffer, out.value)

    def at(self, buffer, position):
        return self.result()(buffer, position)

    behind = at


class _Union:
    kind = _Member

    def __init__(self, readers):
        self.readers = readers

    def of(self, buffer, out):
        reader = self.readers().get(out.tag)
        if reader is None:
            return UnionOffset(out.tag)
        return reader.behind(buffer, out.at)


class _Tag:
    kind = _Member

    def of(self, buffer, out):
        return out.tag


class _Vector:
    kind = _Span

    def __init__(self, reader):
        self.reader = reader

    def of(self, buffer, out):
        return Vector(buffer, out, self.reader)


def _field(name, reader):
    return property(lambda table: _surely(name, table._Buffer, table._Position, reader))


def _field_if(name, reader):
    return property(lambda table: _maybe(name, table._Buffer, table._Position, reader))


def _unions(name, reader):
    return property(lambda table: UnionVector(table._Buffer, table._Position, name, reader))


class UnionOffset:
    """A union whose tag the schema doesn't have."""

    def __init__(self, tag):
        self.tag = tag


class Vector(_abc.Sequence):
    """Items that are read when they are asked for."""

    def __init__(self, buffer, span, reader):
        self._buffer = buffer
        self._span = span
        self._reader = reader

    def __len__(self):
        return self._span.len

    def __getitem__(self, index):
        numbers = range(len(self))[index]
        if isinstance(numbers, range):
            return [self._at(number) for number in numbers]
        return self._at(numbers)

    def __iter__(self):
        return map(self._at, range(len(self)))

    def _at(self, index):
        return self._reader.at(self._buffer, self._span.at + index * self._reader.size)


class UnionVector(Vector):
    """The same of unions."""

    def __init__(self, buffer, position, name, reader):
        self._buffer = buffer
        self._position = position
        self._name = name
        self._reader = reader
        most = _c.c_size_t(-1).value
        status = self._status(most, _Member())
        if status != 1:
            raise ¤(status)
        self._count = 0
        while self._count < most:
            middle = (self._count + most) // 2
            if self._status(middle, _Member()) == 1:
                most = middle
            else:
                self._count = middle + 1

    def __len__(self):
        return self._count

    def tag(self, index):
        """The tag of the union at an index."""
        return self._member(range(len(self))[index]).tag

    def _at(self, index):
        return self._reader.of(self._buffer, self._member(index))

    def _member(self, index):
        out = _Member()
        status = self._status(index, out)
        if status:
            raise ¤(status)
        return out

    def _status(self, index, out):
        return _status(self._name, self._buffer, self._position, out, index)


class Table:
    """A table: the position of the reference that leads to it."""

    def __init__(self, buffer, position=0):
        self._Buffer = bytes(buffer)
        self._Position = position


def sized(buffer):
    """The first of these size-prefixed buffers, after its size."""
    buffer, out = bytes(buffer), _Span()
    call = _call("§_sized")
    call.restype = _c.c_uint32
    status = call(_c.c_char_p(buffer), _c.c_size_t(len(buffer)), _c.byref(out))
    if status:
        raise ¤(status)
    return buffer[out.at : out.at + out.len]
"#;

const IDENTIFIED: &str = r#"

def has_identifier(buffer):
    """Whether a buffer has the file identifier of the schema."""
    buffer = bytes(buffer)
    call = _call("§_has_identifier")
    call.restype = _c.c_bool
    return call(_c.c_char_p(buffer), _c.c_size_t(len(buffer)))
"#;

const ROOT: &str = "

def root(buffer):
    \"\"\"The table at the root of a buffer.\"\"\"
    return ¥(buffer)
";

const VERIFY: &str = r#"

def verify(buffer, depth=64, most_tables=1000000):
    """Tests all that the root leads to, and raises `¤` for the first that can't be read: after it
    no property raises, but of a number that its enum doesn't have. No more than `depth` tables may
    stand one in the other, and no more than `most_tables` be reached, each as often as it is."""
    place = (_c.c_size_t * 4)()
    call = _call("§_verify")
    call.restype = _c.c_uint32
    limits = (_c.c_uint8(depth), _c.c_size_t(most_tables))
    status = call(_c.c_char_p(buffer), _c.c_size_t(len(buffer)), *limits, place)
    if status != 0:
        raise ¤(status)
"#;

const ENUM: &str = "\n\nclass ¥(_enum.IntEnum):\n";

const FLAGS: &str = "\n\nclass ¥(_enum.IntFlag):\n";

const STRUCT: &str = "\n\nclass ¥(_c.Structure):\n    _fields_ = [\n";

const STRUCT_END: &str = "    ]\n\n\nassert _c.sizeof(¥) == $S\n_of_$M = _Struct(¥, \"§_$M\")\n";

const OF_TABLES: Forms = Forms {
    of_enum: "",
    of_struct: "",
    of_table: "_of_$M = _Table(lambda: ¥)\n",
    of_union: "_of_$M = _Union(lambda: _in_$M)\n",
};

/// The fields of a table.
const FIELDS: FieldForms = FieldForms {
    one: "    ¢ = _field(\"§_$M_$n\", £)\n",
    one_if: "    ¢ = _field_if(\"§_$M_$n\", £)\n",
    vector: "    ¢ = _field(\"§_$M_$n\", _Vector(£))\n",
    vector_if: "    ¢ = _field_if(\"§_$M_$n\", _Vector(£))\n",
    bytes: "    ¢ = _field(\"§_$M_$n\", _Bytes())\n",
    bytes_if: "    ¢ = _field_if(\"§_$M_$n\", _Bytes())\n",
    unions: "    ¢ = _unions(\"§_$M_$n\", £)\n",
};

/// Beside a union its tag.
const TAG: &str = " = _field_if(\"§_$M_$n\", _Tag())\n";

impl<'a> Printer<'a> {
    fn put_python_enum(&mut self, one: &Enum, python: Caller<'_>, at: At) {
        self.put_caller(if one.flags { FLAGS } else { ENUM }, python, at);
        self.put_member_forms("    ¢ = $i\n", python, at);
        self.put_caller("\n\n_of_$M = _Enum(¥, ", python, at);
        self.put_caller_number(python.language, one.scalar);
        self.put_caller(", \"§_$M_at\")\n", python, at);
    }

    fn put_python_struct(&mut self, python: Caller<'_>, at: At) {
        self.put_caller(STRUCT, python, at);
        let padding = ("        (\"padding_$p\", _c.c_uint8 * ", "),\n");
        self.put_struct_forms("        (\"¢\", ¶),\n", padding, python, at);
        self.put_caller(STRUCT_END, python, at);
    }

    fn put_python_value(&mut self, body: &Body, python: Caller<'_>, at: At) {
        match body {
            Body::Enum(one) => self.put_python_enum(one, python, at),
            Body::Struct(_) => self.put_python_struct(python, at),
            _ => {}
        }
    }

    fn put_python_tag(&mut self, python: Caller<'_>, at: At) {
        let name = self.context.names.member(at.index, at.place);
        self.put_caller("    ¢_tag", python, at);
        self.put_marks(at.index, name, b"_tag");
        self.put_caller(TAG, python, at);
    }

    fn put_python_field(&mut self, field: &TableField, python: Caller<'_>, at: At) {
        self.put_caller(FIELDS.of(field), python, at);
        if matches!(field.kind.base, Base::Union(_)) && !field.kind.vector {
            self.put_python_tag(python, at);
        }
    }

    fn put_python_table(&mut self, one: &Table, python: Caller<'_>, at: At) {
        self.put_caller(
            "\n\nclass ¥(Table):\n    \"\"\"Tables `$T`.\"\"\"\n\n",
            python,
            at,
        );
        for (place, field) in one.fields.iter().enumerate() {
            if !field.deprecated {
                self.put_python_field(field, python, at.member(place));
            }
        }
    }

    fn put_python_union(&mut self, python: Caller<'_>, at: At) {
        self.put_caller("\n\n_in_$M = {\n", python, at);
        self.put_member_forms("    $g: £,\n", python, at);
        self.put_str("}\n");
    }

    fn put_python_class(&mut self, body: &Body, python: Caller<'_>, at: At) {
        match body {
            Body::Table(one) => self.put_python_table(one, python, at),
            Body::Union(_) => self.put_python_union(python, at),
            _ => {}
        }
    }
}

/// Returns the module for Python.
pub(crate) fn print_python<'a>(context: &'a Context<'a>, prefix: &str) -> Printer<'a> {
    let python = Caller {
        language: Language::Python,
        prefix,
    };
    let first = At::declaration(0);
    let mut text = Printer::new(context);
    text.put_caller(HEAD, python, first);
    text.put_caller(READERS, python, first);
    for (index, one) in context.declared.iter().enumerate() {
        text.put_python_value(&one.body, python, At::declaration(index));
    }
    text.put_str("\n\n");
    text.put_forms(OF_TABLES, python);
    for (index, one) in context.declared.iter().enumerate() {
        text.put_python_class(&one.body, python, At::declaration(index));
    }
    if context.root.is_some() && context.identifier.is_some() {
        text.put_caller(IDENTIFIED, python, first);
    }
    if let Some(root) = context.root {
        text.put_caller(ROOT, python, At::declaration(root));
        text.put_caller(if context.verified { VERIFY } else { "" }, python, first);
    }
    text
}
