//! The form of options.

ghost use Rattle.std.specs.Prelude.{◌≡◌, None, MatchOption, codes, false, map, option_map, true};
ghost use Rattle.saw_words.specs.Given.{are_options, given_in, is_value, options_in, value_of};
ghost use Rattle.saw_words.specs.Options.{IsFirst, IsValueIn};

/// An option, and the words behind it.
#[derive(Clone, Copy)]
struct First<'a> {
    name: &'a str,
    value: &'a str,
    rest: &'a [String],
}

fn is_value(word: &str) -> bool
    ensures { result ≡ is_value word.now }
{
    !word.is_empty() && !word.starts_with("-")
}

/// An option, if its value may be one.
fn option_of<'a>(name: &'a str, value: &'a str, rest: &'a [String]) -> Option<First<'a>>
    ensures { MatchOption result (is_value value.now ≡ false)
        (λ first. (is_value value.now ≡ true)
        × (first ≡ record { name = name.entry; value = value.entry; rest = rest.entry })) }
{
    if !is_value(value) {
        return None;
    }
    Some(First { name, value, rest })
}

/// The first option of some words, as `--name value` or as `--name=value`. `None`: they begin with none.
fn first_option(words: &[String]) -> Option<First<'_>>
    ensures { IsFirst words.now result }
{
    let (word, behind) = words.split_first()?;
    let word = word.as_str();
    match word.split_once('=') {
        Some((name, value)) => option_of(name, value, behind),
        None => {
            let (value, rest) = behind.split_first()?;
            option_of(word, value.as_str(), rest)
        }
    }
}

/// The value that options have for a name.
pub fn value_of<'a>(words: &'a [String], name: &str) -> Option<&'a str>
    ensures { IsValueIn name.now (options_in words.now) result }
{
    let mut words = words;
    while let Some(first) = first_option(words) {
        if first.name == name {
            return Some(first.value);
        }
        words = first.rest;
    }
    None
}

/// Whether words are options of these names, each at most once.
pub fn are_of<'a>(words: &'a [String], names: &[&'a str]) -> bool
    ensures { result ≡ are_options (map (λ name. name.now) names.now) (options_in words.now) }
{
    let mut words = words;
    while let Some(first) = first_option(words) {
        let is_known = names.contains(&first.name);
        let is_again = value_of(first.rest, first.name).is_some();
        if !is_known || is_again {
            return false;
        }
        words = first.rest;
    }
    words.is_empty()
}
