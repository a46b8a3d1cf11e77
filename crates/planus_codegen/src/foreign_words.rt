//! Words of the languages for which calls are printed, which no name in them can be.

/// A language that reads by the calls for C.
#[derive(Clone, Copy)]
pub(crate) enum Language {
    Cpp,
    Python,
    Rust,
}

/// Words of C and C++, and names that their libraries define as macros.
const OF_CPP: &str =
    "EOF FALSE INFINITY NAN NULL TRUE _Bool _Complex _Imaginary alignas alignof and \
     and_eq asm assert auto bitand bitor bool break case catch char char16_t char32_t char8_t class \
     co_await co_return co_yield compl concept const const_cast consteval constexpr constinit \
     continue decltype default delete do double dynamic_cast else enum errno explicit export extern \
     false float for friend goto if inline int linux long mutable namespace new noexcept not not_eq \
     nullptr offsetof operator or or_eq private protected public register reinterpret_cast requires \
     restrict return short signed sizeof static static_assert static_cast std struct switch template \
     this thread_local throw true try typedef typeid typename union unix unsigned using virtual void \
     volatile wchar_t while xor xor_eq";

/// Words of Python, and names that a class of enums can't give to a value.
const OF_PYTHON: &str =
    "False None True and as assert async await break class continue def del elif \
     else except finally for from global if import in is lambda mro nonlocal not or pass raise \
     return try while with yield";

fn has_word(words: &str, name: &[u8]) -> bool {
    words.split(' ').any(|word| word.as_bytes() == name)
}

/// Whether a name is a word of the language. Names in code are none of Rust's.
pub(crate) fn is_word_of(language: Language, name: &[u8]) -> bool {
    match language {
        Language::Cpp => has_word(OF_CPP, name),
        Language::Python => has_word(OF_PYTHON, name),
        Language::Rust => false,
    }
}
