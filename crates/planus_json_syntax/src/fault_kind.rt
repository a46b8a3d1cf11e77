use std::fmt;

/// What is wrong in a text.
#[derive(Clone, Copy, Debug, PartialEq, Eq)]
pub enum FaultKind {
    /// A byte begins no token.
    Strange,
    /// A comment has no `*/`. The place is the text's end.
    OpenComment,
    /// A string has no closing quote. The place is the text's end.
    OpenString,
    /// A byte below 32 is in a string.
    Control,
    /// No escape has this letter. The place is the backslash.
    Letter,
    /// Four hexadecimal digits are missing after `\u`. The place is the backslash.
    Digits,
    /// Half of a character beyond U+FFFF, without the other half. The place is the backslash.
    Half,
    /// What a string says isn't UTF-8. The place is the closing quote.
    NotUtf8,
    /// A value is missing.
    Value,
    /// The key of a member is missing, or is a word that is no name.
    Key,
    /// The colon after a key is missing.
    Colon,
    /// Neither a comma nor `]` follows an item.
    ListEnd,
    /// Neither a comma nor `}` follows a member.
    ObjectEnd,
    /// A list or an object in 256 others begins.
    TooDeep,
}

impl fmt::Display for FaultKind {
    ghost use Rattle.planus_json_syntax.specs.Texts.{kind_text};
    ghost use Rattle.std.specs.Prelude.{Some};

    ghost output = { λ kind. Some (kind_text kind) };

    fn fmt<W: fmt::Write>(&self, f: &mut fmt::Formatter<W>) -> fmt::Result {
        f.write_str(match self {
            FaultKind::Strange => "no token begins with this byte",
            FaultKind::OpenComment => "the comment has no end",
            FaultKind::OpenString => "the string has no end",
            FaultKind::Control => "a control character in a string",
            FaultKind::Letter => "no such escape",
            FaultKind::Digits => "four hexadecimal digits are expected",
            FaultKind::Half => "half of a character",
            FaultKind::NotUtf8 => "the string is not UTF-8",
            FaultKind::Value => "a value is expected",
            FaultKind::Key => "a key is expected",
            FaultKind::Colon => "`:` is expected",
            FaultKind::ListEnd => "`,` or `]` is expected",
            FaultKind::ObjectEnd => "`,` or `}` is expected",
            FaultKind::TooDeep => "lists and objects nest deeper than 256",
        })
    }
}
