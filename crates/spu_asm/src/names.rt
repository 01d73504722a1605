//! Words that name registers, channels and symbols.

ghost use Rattle.std.specs.Prelude.{◌≡◌, ◌≤◌, option_map};
ghost use Rattle.std.specs.List.{list_all};
ghost use Rattle.std.specs.Char.{is_ascii_digit, digit_value};
ghost use Rattle.spu_asm.specs.Names.{is_decimal, number_below_128, register_of, channel_of, is_symbol, without_suffix};

/// Whether each byte is a decimal digit.
fn are_digits(text: &[u8]) -> bool
    ensures { result ≡ list_all is_ascii_digit text.now }
{
    text.iter().all(|c| c.is_ascii_digit())
}

/// Whether a text is decimal digits without a leading zero.
fn is_decimal(text: &[u8]) -> bool
    ensures { result ≡ is_decimal text.now }
{
    match text {
        [] => false,
        [b'0'] => true,
        [first, ..] => *first != b'0' && are_digits(text),
    }
}

/// The value of a decimal digit.
#[tactic(auto, using(crate::proofs::NameLemmas::digit_is))]
fn digit(c: u8) -> u32
    ensures value { 48 ≤ c → c ≤ 57 → result ≡ digit_value c }
    ensures small { result ≤ 9 }
{
    match c {
        b'0'..=b'9' => u32::from(c - b'0'),
        _ => 0,
    }
}

/// The number below 128 that decimal digits without a leading zero write.
#[tactic(auto, using(crate::proofs::NameLemmas::next_digit, crate::proofs::NameLemmas::no_digits, crate::proofs::NameLemmas::named, crate::proofs::NameLemmas::too_large))]
fn number_below_128(digits: &[u8]) -> Option<u8>
    ensures value { result ≡ number_below_128 digits.now }
{
    if !is_decimal(digits) {
        return None;
    }
    let mut n = 0;
    for c in digits {
        n = n * 10 + digit(*c);
        if n >= 128 {
            return None;
        }
    }
    Some(n as u8)
}

/// The register that a word names: `$0` to `$127`, `$lr` and `$LR` for 0, `$sp` and `$SP` for 1.
#[tactic(auto, unfolding(crate::specs::Names::register_of))]
pub fn register_of(word: &[u8]) -> Option<u8>
    ensures value { result ≡ register_of word.now }
{
    match word {
        b"$lr" | b"$LR" => Some(0),
        b"$sp" | b"$SP" => Some(1),
        [b'$', digits @ ..] => number_below_128(digits),
        _ => None,
    }
}

/// The channel that a word names, `$ch0` to `$ch127`.
#[tactic(auto, unfolding(crate::specs::Names::channel_of))]
pub fn channel_of(word: &[u8]) -> Option<u8>
    ensures value { result ≡ channel_of word.now }
{
    match word {
        [b'$', b'c', b'h', digits @ ..] => number_below_128(digits),
        _ => None,
    }
}

/// Whether a word is a symbol: it is neither `.` nor a register.
#[tactic(auto, unfolding(crate::specs::Names::is_symbol))]
pub fn is_symbol(word: &[u8]) -> bool
    ensures { result ≡ is_symbol word.now }
{
    word != b".".as_slice() && register_of(word).is_none()
}

/// The symbol in front of a suffix; None where the word doesn't end with it.
#[tactic(auto, unfolding(crate::specs::Names::without_suffix))]
pub fn without_suffix<'a>(suffix: &[u8], word: &'a [u8]) -> Option<&'a [u8]>
    ensures { option_map (λ name. name.now) result ≡ without_suffix suffix.now word.now }
{
    let (front, end) = word.split_at(word.len().saturating_sub(suffix.len()));
    if end == suffix && !front.is_empty() && is_symbol(front) {
        Some(front)
    } else {
        None
    }
}
