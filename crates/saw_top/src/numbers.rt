//! Numbers among the options.

ghost use Rattle.std.specs.Prelude.{◌≡◌, ◌≤◌, IfSome, option_map};
ghost use Rattle.saw_top.specs.Numbers.{conflicts_in, required, workers_in};

use saw_words::number_in;

/// How many workers there are.
pub(crate) fn workers_in(text: Option<&str>) -> Option<u64>
    ensures { result ≡ workers_in (option_map (λ text. text.now) text.entry) }
{
    match text {
        Some(text) => number_in(1, 64, text),
        None => Some(4),
    }
}

/// A number that an option must have.
pub(crate) fn required(first: u64, last: u64, text: Option<&str>) -> Option<u64>
    ensures value { result ≡ required first last (option_map (λ text. text.now) text.entry) }
    ensures between { IfSome result (λ n. (first ≤ n) × (n ≤ last)) }
{
    match text {
        Some(text) => number_in(first, last, text),
        None => None,
    }
}

/// How many of a hundred second transactions change the same name.
pub(crate) fn conflicts_in(text: Option<&str>) -> Option<u64>
    ensures value { result ≡ conflicts_in (option_map (λ text. text.now) text.entry) }
    ensures few { IfSome result (λ n. n ≤ 100) }
{
    match text {
        Some(text) => number_in(0, 100, text),
        None => Some(10),
    }
}
