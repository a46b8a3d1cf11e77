//! Laws. The functions do nothing: each states a law by its contract.

ghost use Rattle.std.specs.Prelude.{◌≡◌, ◌<◌, ◌||◌, ℕ, List, MatchOption, codes, is_some};
ghost use Rattle.std.specs.List.{All, list_any};
ghost use Rattle.std.specs.Str.{bytes_eq};
ghost use Rattle.planus_cli.specs.Arguments.{command_of, option_of};
ghost use Rattle.planus_cli.specs.Completions.{names, option_words};
ghost use Rattle.planus_cli.specs.Near.{nearest, AreFar, IsFirstNearest};
ghost use Rattle.planus_cli.specs.Near.{candidates, IsFitting};
ghost use Rattle.planus_resolve.specs.Names.{HeadV};
ghost use Rattle.planus_cli.specs.Shown.{shown, IsSeenText};

use crate::arguments::Command;
use planus_resolve::Expected;

/// Whatever the bytes, what is shown of them is UTF-8 without control characters but tabs, and
/// without marks that turn the direction of text.
pub fn shown_is_seen()
    ensures { (bytes : List ℕ) → All (λ b. b < 256) bytes → IsSeenText (shown bytes) }
{}

/// What is proposed for a word is one of the names, near enough; none is nearer, and none before it
/// is as near. Where none is proposed, none is near enough.
pub fn nearest_is_first()
    ensures { (word : List ℕ) (names : List (List ℕ)) → MatchOption (nearest names word)
        (AreFar word names) (IsFirstNearest word names) }
{}

/// What is proposed for an unknown type may stand there.
pub fn candidates_fit()
    ensures { (expected : Expected) (heads : List HeadV)
        → All (IsFitting expected heads) (candidates expected heads) }
{}

/// The options that completions and proposals have of a command are exactly those that it takes, but
/// for values in the same word.
pub fn options_are_listed()
    ensures { (command : Command) (w : List ℕ)
        → list_any (bytes_eq w) (option_words command) ≡ is_some (option_of command w) }
{}

/// The commands that completions have are exactly those that there are, and `help`.
pub fn commands_are_listed()
    ensures { (w : List ℕ) → list_any (bytes_eq w) names
        ≡ (is_some (command_of w) || bytes_eq w (codes "help")) }
{}
