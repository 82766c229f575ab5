//! Questions with the text of their file of conditions.

ghost use Rattle.std.specs.Prelude.{◌≡◌};
ghost use Rattle.td_answer.specs.Filled.{filled_parts, filled_search, with_text};

use td_request::{Parts, Question, Search};

/// A question with the text of its file of conditions.
pub(crate) fn with_text<'w>(question: &Question<'w>, text: Option<&'w [u8]>) -> Question<'w>
    ensures { result ≡ with_text text.entry question.now }
{
    Question {
        inputs: question.inputs,
        flips: question.flips,
        keep_file: question.keep_file,
        keep_text: text,
    }
}

/// A search whose question has the text of its file of conditions.
pub(crate) fn filled_search<'w>(search: &Search<'w>, text: Option<&'w [u8]>) -> Search<'w>
    ensures { result ≡ filled_search text.entry search.now }
{
    Search {
        question: with_text(&search.question, text),
        ..*search
    }
}

/// Parts of a question that has the text of its file of conditions.
pub(crate) fn filled_parts<'w>(asked: &Parts<'w>, text: Option<&'w [u8]>) -> Parts<'w>
    ensures { result ≡ filled_parts text.entry asked.now }
{
    Parts {
        question: with_text(&asked.question, text),
        ..*asked
    }
}
