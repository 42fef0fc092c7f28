//! What options have for values: as words, and as clap reads them.

ghost use Rattle.std.specs.Prelude.{◌≡◌, ℕ, List, Option, Some, option_map, map, false, true, MatchOption};
ghost use Rattle.saw_words.specs.Given.{are_of, are_options, options_in};

use saw_words::{Values, are_of, value_of};
use std::marker::Model;

/// A value for the name of an option.
pub(crate) trait Given<'a> {
    ghost value: { Self → List ℕ → Option (List ℕ) };

    fn of(&self, name: &str) -> Option<&'a str>
        ensures { option_map (λ text. text.now) result ≡ value self.now name.now };
}

impl<'a> Given<'a> for Values<'a> {
    ghost use Rattle.saw_words.specs.Options.{told_by};

    ghost value = { told_by };

    fn of(&self, name: &str) -> Option<&'a str> {
        Values::of(self, name)
    }
}

/// Words that are options.
#[derive(Drop)]
pub(crate) struct Form<'a> {
    words: &'a [String],
}

impl<'a> Model for Form<'a> {
    ghost use Rattle.std.specs.Prelude.{List, IsSome, [], unwrap_or};
    ghost use Rattle.saw_words.specs.Given.{Given, options_in};

    ghost Value = { List Given };

    ghost view = { λ form. unwrap_or (options_in form.words.now) [] };

    ghost invariant = { λ form. IsSome (options_in form.words.now) };
}

impl<'a> Given<'a> for Form<'a> {
    ghost use Rattle.saw_words.specs.Given.{value_of};

    ghost value = { λ given name. value_of name given };

    fn of(&self, name: &str) -> Option<&'a str> {
        value_of(self.words, name)
    }
}

/// Words as options of these names, each at most once.
pub(crate) fn form_of<'a>(words: &'a [String], names: &[&'a str]) -> Option<Form<'a>>
    ensures { MatchOption result (are_options (map (λ name. name.now) names.now) (options_in words.now) ≡ false)
        (λ given. (options_in words.now ≡ Some given) × (are_of (map (λ name. name.now) names.now) given ≡ true)) }
{
    if !are_of(words, names) {
        return None;
    }
    Some(Form { words })
}
