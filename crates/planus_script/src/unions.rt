//! Union vectors in a script.
ghost use Rattle.std.specs.Prelude.{◌≡◌};
ghost use Rattle.std.specs.Option.{option_copied};
ghost use Rattle.planus.specs.Steps as step;
ghost use Rattle.planus_script.specs.Script.{list_step};
ghost use Rattle.planus_script.specs.Asking.{AsksForItems};
ghost use Rattle.planus_script.specs.inner.Steps.{AnswersLine};
ghost use Rattle.planus_script.specs.Unions.{union_of, unions_of};
ghost use Rattle.planus_script.specs.Words.{words_behind};

use crate::script::{FromWord, LineError, ReadFault, cut, items, number};
use planus::Step;
use std::alloc::Global;

impl FromWord for (u8, usize) {
    ghost said = { union_of };

    /// A word such as `1:0`: its tag, and the number of its value's step.
    fn from_word(word: &str) -> Result<(u8, usize), ReadFault> {
        let Some((tag_word, step_word)) = cut(word, ':') else {
            return Err(ReadFault::BadField);
        };
        let Ok(tag) = u8::try_from(number(tag_word)?) else {
            return Err(ReadFault::BadField);
        };
        Ok((tag, number(step_word)? as usize))
    }
}

pub(crate) fn unions(alloc: Global, words: Option<&str>) -> Result<Step, LineError>
    ensures { let words = words_behind (option_copied words.entry) in
        AnswersLine result (list_step step.unions (unions_of words))
        (AsksForItems union_of words) }
{
    Ok(Step::Unions(items::<(u8, usize)>(alloc, words)?))
}
