//! Options behind a command.
ghost use Rattle.std.specs.Prelude.{◌≡◌, ◌<◌, length, IfSome, option_map};
ghost use Rattle.command_words.specs.Words.{after, given_in, are_given, number_given, value_given, texts_of, with_front, is_limit, takes};

use super::job::Command;
use head_text::read_dec;

// An option as it is given, and the words behind it.
#[derive(Clone, Copy)]
struct Setting<'a> {
    name: &'a str,
    value: &'a str,
    behind: &'a [String],
}

/// Whether the words are options of the command, with a value each.
pub(crate) fn are_options(command: Command, words: &[String]) -> bool
    ensures { result ≡ are_given command words.now }
{
    let mut rest = words;
    'each: while !rest.is_empty() {
        match first_of(rest) {
            Some(setting) if takes(command, setting.name) => rest = setting.behind,
            _ => return false,
        }
    }
    true
}

fn takes(command: Command, name: &str) -> bool
    ensures { result ≡ takes command name.now }
{
    match command {
        Command::Pipe => is_limit(name),
        Command::Serve => {
            is_limit(name) || name == "--addr" || name == "--workers" || name == "--connections"
        }
    }
}

fn is_limit(name: &str) -> bool
    ensures { result ≡ is_limit name.now }
{
    name == "--journal-max" || name == "--bytes-max" || name == "--requests-max"
}

/// The value of an option, where it is given, and nothing where it is given more than once or the words are no options.
pub(crate) fn value_of<'a>(words: &'a [String], name: &str) -> Option<Option<&'a str>>
    ensures { option_map (option_map (λ text. text.now)) result ≡ value_given name.now words.now }
{
    let mut found = None;
    let mut rest = words;
    'each: while !rest.is_empty() {
        let setting = first_of(rest)?;
        if setting.name == name {
            if found.is_some() {
                return None;
            }
            found = Some(setting.value);
        }
        rest = setting.behind;
    }
    Some(found)
}

/// The number of an option that is given at most once, and this one where it is not given.
pub(crate) fn number_of(words: &[String], name: &str, otherwise: u64) -> Option<u64>
    ensures { result ≡ number_given name.now otherwise words.now }
{
    match value_of(words, name) {
        Some(Some(value)) => read_dec(value.as_bytes()),
        Some(None) => Some(otherwise),
        None => None,
    }
}

// The first option of the words: `--x=v` in one word, `--x v` in two.
fn first_of(words: &[String]) -> Option<Setting<'_>>
    requires some { 0 < length words.now }
    ensures first { given_in (texts_of words.now) ≡ after result (λ s. with_front (record { name = s.name.now; value = s.value.now })
        (given_in (texts_of s.behind.now))) }
    ensures shorter { IfSome result (λ s. length s.behind.now < length words.now) }
{
    let (word, behind) = words.split_first()?;
    match word.split_once('=') {
        Some((name, value)) => Some(Setting {
            name,
            value,
            behind,
        }),
        None => {
            let (value, behind) = behind.split_first()?;
            Some(Setting {
                name: word.as_str(),
                value: value.as_str(),
                behind,
            })
        }
    }
}
