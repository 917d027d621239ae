//! Numbers of the command line.

ghost use Rattle.std.specs.Prelude.{◌≡◌, ◌≤◌, IfSome};
ghost use Rattle.apl_words.specs.Options.{begins_well, number_to, value_to};

/// The number that a text is, where it is one of at most `most`: decimal digits, without sign or leading zero.
pub(crate) fn number_to(most: u64, text: &str) -> Option<u64>
    requires { most ≤ 1000000000000 }
    ensures value { result ≡ number_to most text.now }
    ensures most { IfSome result (λ n. n ≤ most) }
{
    if begins_well(text.as_bytes()) {
        value_to(most, text.as_bytes())
    } else {
        None
    }
}

// Whether a text begins like a number: not with a 0 before more.
fn begins_well(text: &[u8]) -> bool
    ensures { result ≡ begins_well text.now }
{
    match text {
        [] => false,
        [_digit] => true,
        [first, ..] => *first != b'0',
    }
}

// The number that digits write, where it is at most `most`.
fn value_to(most: u64, text: &[u8]) -> Option<u64>
    requires { most ≤ 1000000000000 }
    ensures value { result ≡ value_to most text.now }
    ensures most { IfSome result (λ n. n ≤ most) }
{
    let mut number: u64 = 0;
    for digit in text {
        if !digit.is_ascii_digit() {
            return None;
        }
        number = number * 10 + u64::from(*digit - b'0');
        if number > most {
            return None;
        }
    }
    Some(number)
}
