//! The words that ask what a record holds.
ghost use Rattle.std.specs.Prelude.{MatchOption, List, ℕ};
ghost use Rattle.engine_options.specs.Options.{words_of};
ghost use Rattle.engine_options.specs.Inspections.{AskInspection};

/// The file of a record, if the words are a program's name, `--inspect` and that file, and nothing else.
pub fn inspected(words: &[String]) -> Option<&str>
    ensures { MatchOption result ((file : List ℕ) → ¬ AskInspection file (words_of words.entry.now))
        (λ file. AskInspection file.now (words_of words.entry.now)) }
{
    match words {
        [_, word, file] if word.as_str() == "--inspect" => Some(file.as_str()),
        _ => None,
    }
}
