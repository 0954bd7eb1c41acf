ghost use Rattle.std.specs.Prelude.{◌≡◌, ◌≢◌, ◌↔◌, ◌&&◌, IsTrue, MatchOption, map};
ghost use Rattle.std.specs.String.{string_bytes};
ghost use Rattle.ras_settings.specs.Form.{HasSomeForm, are_pairs, is_option, is_value, option_word};
ghost use Rattle.ras_settings.specs.declared.form.OptionName.{OptionName as NameOfOption};

/// An option of a command.
#[derive(Clone, Copy, Debug, PartialEq, Eq)]
pub enum OptionName {
    /// `--workers`: how many workers evaluate a statement.
    Workers,
    /// `--schedule`: which session takes a step, one after another.
    Schedule,
    /// `--seed`: the number from which a workload is generated.
    Seed,
    /// `--size`: how large the generated workload is.
    Size,
}

/// The option that a word names.
fn option_named(word: &str) -> Option<OptionName>
    ensures { MatchOption result ((name : NameOfOption) → word.now ≢ option_word name) (λ name. word.now ≡ option_word name) }
{
    match word {
        "--workers" => Some(OptionName::Workers),
        "--schedule" => Some(OptionName::Schedule),
        "--seed" => Some(OptionName::Seed),
        "--size" => Some(OptionName::Size),
        _ => None,
    }
}

/// Whether a word may be a command's name or an option's value.
fn is_value(word: &str) -> bool
    ensures { result ≡ is_value word.now }
{
    match word.as_bytes() {
        [] => false,
        [first, ..] => *first != b'-',
    }
}

/// Whether the two words are an option and a value.
fn is_pair(option: &str, value: &str) -> bool
    ensures { result ≡ (is_option option.now && is_value value.now) }
{
    option_named(option).is_some() && is_value(value)
}

/// Whether the words are options, each once and followed by a value. Since an option is refused where it
/// comes again, no more than four pairs are gone through.
fn are_pairs(words: &[String]) -> bool
    ensures { result ≡ are_pairs (map string_bytes words.now) }
{
    match words {
        [] => true,
        [_] => false,
        [option, value, rest @ ..] => {
            if !is_pair(option, value) {
                return false;
            }
            if rest.contains(option) {
                return false;
            }
            are_pairs(rest)
        }
    }
}

/// Whether the words are a command's name and options, each once and followed by a value.
pub(crate) fn has_form(words: &[String]) -> bool
    ensures { IsTrue result ↔ HasSomeForm (map string_bytes words.now) }
{
    match words {
        [command, pairs @ ..] => is_value(command) && are_pairs(pairs),
        [] => false,
    }
}
