//! Laws. The functions do nothing: each states a law by its contract.

ghost use Rattle.std.specs.Prelude.{◌≡◌, ℕ, List, Ok};
ghost use Rattle.planus_json_syntax.specs.Values.{JsonV};
ghost use Rattle.planus_json_syntax.specs.Reading.{read};
ghost use Rattle.planus_json_syntax.specs.Spelling.{OneContent, Spells, StringsAreWritten};

/// However values are spelled, they are read.
pub fn spelling_read()
    ensures { (bytes : List ℕ) (values : List JsonV) → Spells bytes values
        → read bytes ≡ Ok values }
{}

/// Values that are read were spelled by the text.
pub fn spelling_found()
    ensures { (bytes : List ℕ) (values : List JsonV) → read bytes ≡ Ok values
        → Spells bytes values }
{}

/// A text spells one list of values, or none.
pub fn one_spelling()
    ensures { (bytes : List ℕ) (a b : List JsonV) → Spells bytes a → Spells bytes b → a ≡ b }
{}

/// What stands between two quotes says one content.
pub fn one_content()
    ensures { OneContent }
{}

/// Each text has a string that says it.
pub fn strings_are_written()
    ensures { StringsAreWritten }
{}
