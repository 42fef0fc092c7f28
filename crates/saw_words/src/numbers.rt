//! Numbers among the words.

ghost use Rattle.std.specs.Prelude.{◌≡◌, ◌≤◌, ◌^◌, true, IfSome, MatchOption};
ghost use Rattle.std.specs.List.{list_all};
ghost use Rattle.saw_words.specs.Numbers.{is_digit, is_number, number_in, number_of};

fn is_digit(byte: u8) -> bool
    ensures { result ≡ is_digit byte }
{
    b'0' <= byte && byte <= b'9'
}

fn are_digits(text: &[u8]) -> bool
    ensures { result ≡ list_all is_digit text.now }
{
    text.iter().all(|byte| is_digit(*byte))
}

fn is_number(text: &str) -> bool
    ensures { result ≡ is_number text.now }
{
    1 <= text.len() && text.len() <= 20 && are_digits(text.as_bytes())
}

// The number of a text, if 64 bits hold it.
fn value_of(text: &str) -> Option<u64>
    ensures { is_number text.now ≡ true → MatchOption result (2 ^ 64 ≤ number_of text.now) (λ n. n ≡ number_of text.now) }
{
    text.parse::<u64>().ok()
}

/// The number that a text of 1 to 20 decimal digits is. `None`: it is no such text, or no number of this range.
#[tactic(auto, unfolding(crate::specs::Numbers::number_in))]
pub fn number_in(first: u64, last: u64, text: &str) -> Option<u64>
    ensures value { result ≡ number_in first last text.now }
    ensures between { IfSome result (λ n. (first ≤ n) × (n ≤ last)) }
{
    if !is_number(text) {
        return None;
    }
    let number = value_of(text)?;
    if first <= number && number <= last {
        return Some(number);
    }
    None
}
