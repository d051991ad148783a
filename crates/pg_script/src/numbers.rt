ghost use Rattle.std.specs.Prelude.{◌≡◌, IsTrue};
ghost use Rattle.std.specs.List.{list_all};
ghost use Rattle.std.specs.Str.Parse.{digits_value};
ghost use Rattle.pg_perm.specs.Names.{is_digit};
ghost use Rattle.pg_script.specs.Numbers as numbers;

/// The most digits that a number has.
const DIGIT_LIMIT: usize = 20;

fn are_digits(bytes: &[u8]) -> bool
    ensures { result ≡ list_all is_digit bytes.now }
{
    bytes.iter().all(|byte| byte.is_ascii_digit())
}

fn is_number(word: &[u8]) -> bool
    ensures { result ≡ numbers.is_number word.now }
{
    let Some((first, rest)) = word.split_first() else {
        return false;
    };
    are_digits(word) && rest.len() < DIGIT_LIMIT && (*first != b'0' || rest.is_empty())
}

fn value_of(digits: &[u8]) -> u128
    requires { IsTrue (numbers.is_number digits.now) }
    ensures { result ≡ digits_value 10 digits.now }
{
    let mut value: u128 = 0;
    for digit in digits {
        value = value * 10 + u128::from(*digit - b'0');
    }
    value
}

/// The number that a word is: 1 to 20 digits, of which the first is 0 only where it is the only one.
pub fn number_of(word: &[u8]) -> Option<u128>
    ensures { result ≡ numbers.number_of word.now }
{
    if is_number(word) {
        Some(value_of(word))
    } else {
        None
    }
}
