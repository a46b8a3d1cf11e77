//! The module for C++, over the calls for C.

use crate::at::At;
use crate::context::Context;
use crate::foreign_caller::Caller;
use crate::foreign_forms::{FieldForms, Forms};
use crate::foreign_words::Language;
use crate::holes::base;
use crate::printer::Printer;
use planus_schema::{Base, Body, Enum, TableField};

const HEAD: &str = "\
// Classes over buffers of `$c`, by the calls of §.h. C++17.
//
// A table is `TABLE(buffer, len)`, or with the position of the reference that leads to it; what is
// read is of the buffer, which stays as it is for as long. No byte and no position does harm: what
// can't be read throws `¤`.
";

const TYPES: &str = "
#include \"§.h\"

#include <cstddef>
#include <cstdint>
#include <cstring>
#include <iterator>
#include <optional>
#include <stdexcept>
#include <string_view>

namespace ¬ {

// Why nothing is read.
class ¤ : public std::runtime_error {
 public:
  explicit ¤(std::uint32_t number)
      : std::runtime_error(::§_status_text(number)), Number(number) {}
  std::uint32_t status() const noexcept { return Number; }

 private:
  std::uint32_t Number;
};

namespace inner {

struct BufferView {
  const std::uint8_t *buffer;
  std::size_t len;
  std::size_t at;
};

template <class Plain>
using CallRef = std::uint32_t (*)(const std::uint8_t *, std::size_t, std::size_t, Plain *);

// What a call stores of a value, and how an item of a vector is read. This is that of numbers.
template <class T>
struct TableRead {
  using Plain = T;
  static constexpr std::size_t size = sizeof(T);
  static T of(const BufferView &, T out) { return out; }
  static T at(const BufferView &place) {
    T out;
    std::memcpy(&out, place.buffer + place.at, sizeof out);
    return out;
  }
};

template <class T>
std::optional<T> maybe(const BufferView &place, CallRef<typename TableRead<T>::Plain> call) {
  typename TableRead<T>::Plain out{};
  const std::uint32_t status = call(place.buffer, place.len, place.at, &out);
  if (status > 1) throw ¤(status);
  if (status == 1) return std::nullopt;
  return TableRead<T>::of(place, out);
}

template <class T>
T surely(const BufferView &place, CallRef<typename TableRead<T>::Plain> call) {
  std::optional<T> found = maybe<T>(place, call);
  if (!found) throw ¤(9);
  return *found;
}

// The items that a call says are of the buffer.
inline void test(const BufferView &place, ::§_span items, std::size_t size) {
  if (items.at > place.len || items.len > (place.len - items.at) / size) throw ¤(3);
}

template <>
struct TableRead<bool> {
  using Plain = bool;
  static constexpr std::size_t size = 1;
  static bool of(const BufferView &, bool out) { return out; }
  static bool at(const BufferView &place) { return place.buffer[place.at] != 0; }
};

template <>
struct TableRead<std::string_view> {
  using Plain = ::§_span;
  static constexpr std::size_t size = 4;
  static std::string_view of(const BufferView &place, Plain out) {
    test(place, out, 1);
    if (out.len == 0) return std::string_view();
    return std::string_view(reinterpret_cast<const char *>(place.buffer) + out.at, out.len);
  }
  static std::string_view at(const BufferView &place) {
    return surely<std::string_view>(place, ::§_string_at);
  }
};

// Over the items of a vector.
template <class List>
class VectorView {
 public:
  using iterator_category = std::input_iterator_tag;
  using value_type = typename List::value_type;
  using difference_type = std::ptrdiff_t;
  using pointer = void;
  using reference = value_type;

  VectorView(const List &list, std::size_t index) : Items(list), Index(index) {}
  value_type operator*() const { return Items[Index]; }
  VectorView &operator++() {
    ++Index;
    return *this;
  }
  VectorView operator++(int) {
    VectorView before = *this;
    ++Index;
    return before;
  }
  bool operator==(const VectorView &other) const { return Index == other.Index; }
  bool operator!=(const VectorView &other) const { return Index != other.Index; }

 private:
  List Items;
  std::size_t Index;
};

}  // namespace inner

// Items that are read when they are asked for. There is none at size() and after.
template <class T>
class Vector {
 public:
  using value_type = T;

  Vector(const inner::BufferView &place, ::§_span items) : At(place), Items(items) {}
  std::size_t size() const { return Items.len; }
  bool empty() const { return Items.len == 0; }
  // The bytes of all items, which may not be aligned.
  const std::uint8_t *data() const { return empty() ? nullptr : At.buffer + Items.at; }
  T operator[](std::size_t index) const {
    if (index >= Items.len) throw std::out_of_range(\"no such item\");
    return inner::TableRead<T>::at(
        {At.buffer, At.len, Items.at + index * inner::TableRead<T>::size});
  }
  inner::VectorView<Vector> begin() const { return {*this, 0}; }
  inner::VectorView<Vector> end() const { return {*this, Items.len}; }

 private:
  inner::BufferView At;
  ::§_span Items;
};

// The same of unions.
template <class T>
class UnionVector {
 public:
  using value_type = T;
  using CallRef = std::uint32_t (*)(const std::uint8_t *, std::size_t, std::size_t, std::size_t,
                                 ::§_member *);

  UnionVector(const inner::BufferView &place, CallRef call) : At(place), Item(call), Count(0) {
    std::size_t more = SIZE_MAX;
    if (!is_end(more, true)) throw ¤(3);
    while (Count < more) {
      const std::size_t middle = Count + (more - Count) / 2;
      if (is_end(middle, false)) more = middle;
      else Count = middle + 1;
    }
  }
  std::size_t size() const { return Count; }
  bool empty() const { return Count == 0; }
  T operator[](std::size_t index) const {
    ::§_member out{};
    const std::uint32_t status = Item(At.buffer, At.len, At.at, index, &out);
    if (status > 1) throw ¤(status);
    if (status == 1) throw std::out_of_range(\"no such item\");
    return inner::TableRead<T>::of(At, out);
  }
  inner::VectorView<UnionVector> begin() const { return {*this, 0}; }
  inner::VectorView<UnionVector> end() const { return {*this, Count}; }

 private:
  bool is_end(std::size_t index, bool throws) const {
    ::§_member out{};
    const std::uint32_t status = Item(At.buffer, At.len, At.at, index, &out);
    if (status > 1 && throws) throw ¤(status);
    return status == 1;
  }
  inner::BufferView At;
  CallRef Item;
  std::size_t Count;
};

namespace inner {

template <class T>
struct TableRead<Vector<T>> {
  using Plain = ::§_span;
  static Vector<T> of(const BufferView &place, Plain out) {
    test(place, out, TableRead<T>::size);
    return Vector<T>(place, out);
  }
};

}  // namespace inner
";

const ENUM: &str = "
enum class ¥ : ::§_$M {
";

const FLAGS: &str = "\
constexpr ¥ operator|(¥ one, ¥ other) {
  return static_cast<¥>(static_cast<::§_$M>(one) | static_cast<::§_$M>(other));
}
constexpr ¥ operator&(¥ one, ¥ other) {
  return static_cast<¥>(static_cast<::§_$M>(one) & static_cast<::§_$M>(other));
}
";

const ENUM_READER: &str = "
template <>
struct inner::TableRead<¥> {
  using Plain = ::§_$M;
  static constexpr std::size_t size = $S;
  static_assert(sizeof(Plain) == size, \"its bytes are those of the format\");
  static ¥ of(const BufferView &, Plain out) { return static_cast<¥>(out); }
  static ¥ at(const BufferView &place) { return surely<¥>(place, ::§_$M_at); }
};
";

const STRUCT: &str = "
using ¥ = ::§_$M;

template <>
struct inner::TableRead<¥> {
  using Plain = ::§_$M;
  static constexpr std::size_t size = $S;
  static_assert(sizeof(Plain) == size, \"its bytes are those of the format\");
  static ¥ of(const BufferView &, Plain out) { return out; }
  static ¥ at(const BufferView &place) { return surely<¥>(place, ::§_$M_at); }
};
";

const TABLE_READER: &str = "
template <>
struct inner::TableRead<¥> {
  using Plain = std::size_t;
  static constexpr std::size_t size = 4;
  static ¥ of(const BufferView &place, Plain out);
  static ¥ at(const BufferView &place);
};
";

const UNION_READER: &str = "
template <>
struct inner::TableRead<¥> {
  using Plain = ::§_member;
  static ¥ of(const BufferView &place, Plain out);
};
";

const TABLE: &str = "
class ¥ {
 public:
  explicit ¥(const std::uint8_t *buffer, std::size_t len, std::size_t at = 0)
      : Table{buffer, len, at} {}
";

const UNION: &str = "
// A union: its tag, and its value by its type.
class ¥ {
 public:
  ¥(const inner::BufferView &place, std::uint8_t tag) : Offset(place), Type(tag) {}
  std::uint8_t tag() const { return Type; }
";

const TABLE_END: &str = "
 private:
  inner::BufferView Table;
};
";

const UNION_END: &str = "
 private:
  inner::BufferView Offset;
  std::uint8_t Type;
};
";

const TABLE_READS: &str = "
inline ¥ inner::TableRead<¥>::of(const BufferView &place, Plain out) {
  return ¥(place.buffer, place.len, out);
}
inline ¥ inner::TableRead<¥>::at(const BufferView &place) {
  return ¥(place.buffer, place.len, place.at);
}
";

const UNION_READS: &str = "
inline ¥ inner::TableRead<¥>::of(const BufferView &place, Plain out) {
  return ¥({place.buffer, place.len, out.at}, out.tag);
}
";

const MEMBER: &str = "  std::optional<£> as_$V() const;\n";

const MEMBER_HEAD: &str = "inline std::optional<£> ¥::as_$V() const {
  if (Type != $g) return std::nullopt;
";

const OF_TABLE: &str = "  return inner::TableRead<£>::at(Offset);\n}\n";

const OF_STRUCT: &str = "  return inner::surely<£>(Offset, ::§_$h_behind);\n}\n";

const ROOT: &str = "
// The table at the root of a buffer.
inline ¥ root(const std::uint8_t *buffer, std::size_t len) { return ¥(buffer, len); }
";

const VERIFY: &str = "
// Tests all that the root leads to: after it no method throws, but of a number that its enum doesn't
// have. No more than `depth` tables may stand one in the other, and no more than `most_tables` be
// reached, each as often as it is.
inline void verify(const std::uint8_t *buffer, std::size_t len, std::uint8_t depth = 64,
                   std::size_t most_tables = 1000000) {
  ::§_fault place{};
  const std::uint32_t status = ::§_verify(buffer, len, depth, most_tables, &place);
  if (status != 0) throw ¤(status);
}
";

const END: &str = "
}  // namespace ¬

#endif
";

/// The type that a field's method returns.
const RETURNED: FieldForms = FieldForms {
    one: "£ ",
    one_if: "std::optional<£> ",
    vector: "Vector<£> ",
    vector_if: "std::optional<Vector<£>> ",
    bytes: "Vector<£> ",
    bytes_if: "std::optional<Vector<£>> ",
    unions: "UnionVector<£> ",
};

/// What it returns.
const READ: FieldForms = FieldForms {
    one: "inner::surely<£>",
    one_if: "inner::maybe<£>",
    vector: "inner::surely<Vector<£>>",
    vector_if: "inner::maybe<Vector<£>>",
    bytes: "inner::surely<Vector<£>>",
    bytes_if: "inner::maybe<Vector<£>>",
    unions: "UnionVector<£>",
};

/// What declares a class, so that each can return another.
const CLASSES: Forms = Forms {
    of_enum: "",
    of_struct: "",
    of_table: "class ¥;\n",
    of_union: "class ¥;\n",
};

const READERS: Forms = Forms {
    of_enum: "",
    of_struct: "",
    of_table: TABLE_READER,
    of_union: UNION_READER,
};

const READS: Forms = Forms {
    of_enum: "",
    of_struct: "",
    of_table: TABLE_READS,
    of_union: UNION_READS,
};

fn member_body(base: Base) -> &'static str {
    match base {
        Base::Struct(_) => OF_STRUCT,
        _ => OF_TABLE,
    }
}

impl<'a> Printer<'a> {
    fn put_cpp_enum(&mut self, one: &Enum, cpp: Caller<'_>, at: At) {
        self.put_caller(ENUM, cpp, at);
        for place in 0..one.values.len() {
            self.put_caller("  ¢ = ", cpp, at.member(place));
            self.put_enum_macro(cpp.prefix, at.member(place));
            self.put_str(",\n");
        }
        self.put_str("};\n");
        self.put_caller(if one.flags { FLAGS } else { "" }, cpp, at);
        self.put_caller(ENUM_READER, cpp, at);
    }

    fn put_cpp_value(&mut self, body: &Body, cpp: Caller<'_>, at: At) {
        match body {
            Body::Enum(one) => self.put_cpp_enum(one, cpp, at),
            Body::Struct(_) => self.put_caller(STRUCT, cpp, at),
            _ => {}
        }
    }

    fn put_cpp_method(&mut self, field: &TableField, cpp: Caller<'_>, at: At) {
        self.put_str("  ");
        self.put_caller(RETURNED.of(field), cpp, at);
        self.put_caller("¢() const;\n", cpp, at);
    }

    fn put_cpp_class(&mut self, body: &Body, cpp: Caller<'_>, at: At) {
        match body {
            Body::Table(one) => {
                self.put_caller(TABLE, cpp, at);
                for (place, field) in one.fields.iter().enumerate() {
                    if !field.deprecated {
                        self.put_cpp_method(field, cpp, at.member(place));
                    }
                }
                self.put_str(TABLE_END);
            }
            Body::Union(_) => {
                self.put_caller(UNION, cpp, at);
                self.put_member_forms(MEMBER, cpp, at);
                self.put_str(UNION_END);
            }
            _ => {}
        }
    }

    fn put_cpp_read(&mut self, field: &TableField, cpp: Caller<'_>, at: At) {
        self.put_str("inline ");
        self.put_caller(RETURNED.of(field), cpp, at);
        self.put_caller("¥::¢() const {\n  return ", cpp, at);
        self.put_caller(READ.of(field), cpp, at);
        self.put_caller("(Table, ::§_$M_$n);\n}\n", cpp, at);
    }

    fn put_cpp_member(&mut self, cpp: Caller<'_>, at: At) {
        self.put_caller(MEMBER_HEAD, cpp, at);
        self.put_caller(member_body(base(self.context, at)), cpp, at);
    }

    fn put_cpp_methods(&mut self, body: &Body, cpp: Caller<'_>, at: At) {
        match body {
            Body::Table(one) => {
                for (place, field) in one.fields.iter().enumerate() {
                    if !field.deprecated {
                        self.put_cpp_read(field, cpp, at.member(place));
                    }
                }
            }
            Body::Union(one) => {
                for place in 0..one.members.len() {
                    self.put_cpp_member(cpp, at.member(place));
                }
            }
            _ => {}
        }
    }
}

/// Returns the module for C++.
pub(crate) fn print_cpp<'a>(context: &'a Context<'a>, prefix: &str) -> Printer<'a> {
    let cpp = Caller {
        language: Language::Cpp,
        prefix,
    };
    let first = At::declaration(0);
    let mut text = Printer::new(context);
    text.put_caller(HEAD, cpp, first);
    text.put_guard("HPP", prefix);
    text.put_caller(TYPES, cpp, first);
    for (index, one) in context.declared.iter().enumerate() {
        text.put_cpp_value(&one.body, cpp, At::declaration(index));
    }
    text.put_str("\n");
    text.put_forms(CLASSES, cpp);
    text.put_forms(READERS, cpp);
    for (index, one) in context.declared.iter().enumerate() {
        text.put_cpp_class(&one.body, cpp, At::declaration(index));
    }
    text.put_forms(READS, cpp);
    for (index, one) in context.declared.iter().enumerate() {
        text.put_cpp_methods(&one.body, cpp, At::declaration(index));
    }
    if let Some(root) = context.root {
        text.put_caller(ROOT, cpp, At::declaration(root));
        text.put_caller(if context.verified { VERIFY } else { "" }, cpp, first);
    }
    text.put_caller(END, cpp, first);
    text
}
