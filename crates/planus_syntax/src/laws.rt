//! Laws. The functions do nothing: each states a law by its contract.

ghost use Rattle.std.specs.Prelude.{◌≡◌, ℕ, List, [], true, Ok};
ghost use Rattle.std.specs.List.{AllByRecursion};
ghost use Rattle.planus_syntax.specs.Tokens.{Piece, is_lawful};
ghost use Rattle.planus_syntax.specs.Layout.{printed};
ghost use Rattle.planus_syntax.specs.Lexing.{lex_of};
ghost use Rattle.planus_syntax.specs.Values.{SchemaV, IsSchema, AreWhole};
ghost use Rattle.planus_syntax.specs.Values.{schema_pieces, text_of};
ghost use Rattle.planus_syntax.specs.Reading.{schema_at};
ghost use Rattle.planus_syntax.specs.Placing.{StandsAt};
ghost use Rattle.planus_syntax.specs.Spelled.{Part, AreParts, spelled, tokens_in};
ghost use Rattle.planus_syntax.specs.Comments.{canonical, comments_in, elements_of};
ghost use Rattle.planus_syntax.specs.Parsed.{HasCanonicalText};

/// The canonical layout of tokens is a spelling of them.
pub fn layout_spells()
    ensures { (pieces : List Piece) → AllByRecursion (λ p. is_lawful p ≡ true) pieces
        → (parts : List Part) × AreParts parts × (printed pieces ≡ spelled parts)
        × (pieces ≡ tokens_in parts) }
{}

/// The declarations of the tokens that are written are those that were written.
pub fn declarations_again()
    ensures { (schema : SchemaV) → AreWhole schema.declarations
        → schema_at (schema_pieces schema) ≡ Ok (schema, []) }
{}

/// No text is the canonical text of two schemas.
pub fn one_schema()
    ensures { (a b : SchemaV) → IsSchema a → IsSchema b → text_of a ≡ text_of b
        → a ≡ b }
{}

/// However tokens are spelled, with blanks and comments between them, they are read.
pub fn spelling_read()
    ensures { (parts : List Part) → AreParts parts
        → lex_of (spelled parts) ≡ Ok (tokens_in parts) }
{}

/// Tokens that are read were spelled by the text.
pub fn spelling_found()
    ensures { (bytes : List ℕ) (pieces : List Piece) → lex_of bytes ≡ Ok pieces
        → (parts : List Part) × AreParts parts × (bytes ≡ spelled parts)
        × (pieces ≡ tokens_in parts) }
{}

/// A token has one place in a text: no other byte, as one in a comment, is the place of its index.
pub fn one_place()
    ensures { (bytes : List ℕ) (pieces : List Piece) (index a b : ℕ)
        → StandsAt bytes pieces index a → StandsAt bytes pieces index b → a ≡ b }
{}

/// The canonical text of a text has the elements of the text: its tokens, and each comment once, in
/// order, at the beginning of its line or not.
pub fn canonical_again()
    ensures { (parts : List Part) → AreParts parts
        → (again : List Part) × AreParts again × (canonical (elements_of parts) ≡ spelled again)
        × (elements_of again ≡ elements_of parts) }
{}

/// A text has one canonical text.
pub fn one_canonical_text()
    ensures { (text a b : List ℕ) → HasCanonicalText text a → HasCanonicalText text b → a ≡ b }
{}

/// A canonical text is its own canonical text.
pub fn canonical_stays()
    ensures { (text a b : List ℕ) → HasCanonicalText text a → HasCanonicalText a b → b ≡ a }
{}

/// The canonical text of a text without comments is the canonical layout of its tokens.
pub fn no_comments()
    ensures { (parts : List Part) → comments_in parts ≡ []
        → canonical (elements_of parts) ≡ printed (tokens_in parts) }
{}
