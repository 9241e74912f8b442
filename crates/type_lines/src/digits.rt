// Numbers in digits.
ghost use Rattle.std.specs.Prelude.{◌≡◌, ◌%◌};
ghost use Rattle.type_lines.specs.Digits.{digit, hex};

// The digit of the number's remainder by 16. `char::from_digit` gives an `Option<char>`, from which to make a byte is no plainer.
pub fn digit_of(n: u64) -> u8
    ensures { result ≡ digit (n % 16) }
{
    let d = (n % 16) as u8;
    if d < 10 { b'0' + d } else { b'a' - 10 + d }
}

// All 16 hexadecimal digits, made from the lowest on. `{:016x}` prints into a sink, and an array as one is no plainer; this one is always full.
pub fn hex_digits(value: u64) -> [u8; 16]
    ensures { result ≡ hex 16 value }
{
    let mut digits = [0u8; 16];
    let mut rest = value;
    for place in (0..16).rev() {
        digits[place] = digit_of(rest);
        rest /= 16;
    }
    digits
}
