//! The messages of faults in texts.

ghost use Rattle.std.specs.Prelude.{◌≡◌};
ghost use Rattle.planus_cli.specs.Reports as spec;

use planus_syntax::{LexFault, ParseFault};

/// Returns the message of a fault in a text.
pub fn lex_message(fault: LexFault) -> &'static str
    ensures { result.now ≡ spec.lex_message fault }
{
    match fault {
        LexFault::BadNumber => "the number that ends here is malformed",
        LexFault::OpenString => "the string has no end on its line",
        LexFault::Escape => { "the escape in the string is malformed, or its bytes are no UTF-8" }
        LexFault::Control => "a control character, as a tab, is in the string",
        LexFault::NotUtf8 => "the string that ends here is not UTF-8",
        LexFault::OpenComment => "the comment has no end",
        LexFault::Strange => "unexpected character",
    }
}

fn mark_message(mark: u8) -> &'static str
    ensures { result.now ≡ spec.mark_message mark }
{
    match mark {
        b'{' => "expected `{`",
        b'}' => "expected `}`",
        b'(' => "expected `(`",
        b')' => "expected `,` or `)`",
        b']' => "expected `]`",
        b':' => "expected `:`",
        b';' => "expected `;`",
        _ => "expected another mark",
    }
}

/// Returns the message of a fault of tokens.
pub fn parse_message(fault: ParseFault) -> &'static str
    ensures { result.now ≡ spec.parse_message fault }
{
    match fault {
        ParseFault::Mark(mark) => mark_message(mark),
        ParseFault::Word => "expected a name",
        ParseFault::Number => "expected an integer",
        ParseFault::Text => "expected a string",
        ParseFault::Literal => "expected a value",
        ParseFault::Declaration => "expected a declaration, as `table`, `struct` or `enum`",
    }
}
