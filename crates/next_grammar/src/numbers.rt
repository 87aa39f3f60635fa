//! Numbers.
ghost use Rattle.std.specs.Prelude.{◌≡◌, ◌<◌, ◌≤◌, ◌^◌, nat_le, Some, None, if◌then◌else◌, IfSome};
ghost use Rattle.std.specs.List.{list_all};
ghost use Rattle.next_grammar.specs.Numbers.{is_digit, is_numeral, value, number_of, client_of, count_of, times_of, steps_of, size_of};

use next_ids::Client;

const MOST_SIZE: u64 = 9_223_372_036_854_775_807;

fn digit(b: u8) -> bool
    ensures { result ≡ is_digit b }
{
    b >= b'0' && b <= b'9'
}

fn all_digits(word: &[u8]) -> bool
    ensures { result ≡ list_all is_digit word.now }
{
    word.iter().all(|b| digit(*b))
}

#[tactic(auto, unfolding(crate::specs::Numbers::is_numeral))]
fn numeral(word: &[u8]) -> bool
    ensures { result ≡ is_numeral word.now }
{
    match word {
        [] => false,
        [first, more @ ..] => all_digits(word) && (*first != b'0' || more.is_empty()),
    }
}

// What the digits say, where it is no more than `most`.
fn value_within(word: &[u8], most: u64) -> Option<u64>
    requires { most < 2 ^ 63 }
    ensures { result ≡ (if nat_le (value word.now) most then Some (value word.now) else None) }
{
    let mut number: u128 = 0;
    for b in word {
        number = 10 * number + b.saturating_sub(48) as u128;
        if number > most as u128 {
            return None;
        }
    }
    Some(number as u64)
}

// The number, where it is `least` to `most`.
#[tactic(auto, unfolding(crate::specs::Numbers::number_of))]
fn number_within(word: &[u8], least: u64, most: u64) -> Option<u64>
    requires { most < 2 ^ 63 }
    ensures number { result ≡ number_of least most word.now }
    ensures low { IfSome result (λ number. least ≤ number) }
    ensures high { IfSome result (λ number. number ≤ most) }
{
    if !numeral(word) {
        return None;
    }
    let number = value_within(word, most)?;
    if number < least { None } else { Some(number) }
}

/// The client of this number.
#[tactic(auto, unfolding(crate::specs::Numbers::client_of))]
pub fn read_client(word: &[u8]) -> Option<Client>
    ensures client { result ≡ client_of word.now }
    ensures low { IfSome result (λ client. 0 < client.0) }
    ensures high { IfSome result (λ client. client.0 ≤ 32) }
{
    let number = number_within(word, 1, 32)?;
    Some(Client(number as u32))
}

/// How many shards or stores.
#[tactic(auto, unfolding(crate::specs::Numbers::count_of))]
pub fn read_count(word: &[u8]) -> Option<u32>
    ensures { result ≡ count_of word.now }
{
    let number = number_within(word, 1, 64)?;
    Some(number as u32)
}

/// How many turns.
#[tactic(auto, unfolding(crate::specs::Numbers::times_of))]
pub fn read_times(word: &[u8]) -> Option<u32>
    ensures { result ≡ times_of word.now }
{
    let number = number_within(word, 1, 1_000_000)?;
    Some(number as u32)
}

/// How many steps.
#[tactic(auto, unfolding(crate::specs::Numbers::steps_of))]
pub fn read_steps(word: &[u8]) -> Option<u64>
    ensures { result ≡ steps_of word.now }
{
    number_within(word, 0, 1_000_000)
}

/// The size of a file.
#[tactic(auto, unfolding(crate::specs::Numbers::size_of))]
pub fn read_size(word: &[u8]) -> Option<u64>
    ensures { result ≡ size_of word.now }
{
    number_within(word, 0, MOST_SIZE)
}
