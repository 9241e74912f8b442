// Numbers and bytes in lowercase hexadecimal.
ghost use Rattle.std.specs.Prelude.{◌≤◌, ◌/◌, ◌≡◌, true, eqb, length, Some, option_map};
ghost use Rattle.test_lines.specs.Lines.{digit_of, all_digits, hex_number, digit_pairs, hex_bytes, fitting, numbers_of_fields, list_numbers, list_count};
ghost use Rattle.util.specs.Buffer.{overwritten};

use crate::line::field;

// The value of a digit, or 16. No `Option`: `digit_of` is a number for each byte, and `write_pairs` has no case for what is no digit. Not std's
// `to_digit`, which takes capitals too.
pub fn digit(b: u8) -> u64
    ensures { result ≡ digit_of b }
{
    match b {
        b'0'..=b'9' => u64::from(b - b'0'),
        b'a'..=b'f' => u64::from(b - b'a') + 10,
        _ => 16,
    }
}

// A number below 2^64. Not std's `from_str_radix`, which takes capitals and a sign too.
pub fn parse_number(s: &[u8]) -> Option<u64>
    ensures { result ≡ hex_number s.now }
{
    if s.is_empty() {
        return None;
    }
    let mut value: u64 = 0;
    for b in s {
        let d = digit(*b);
        if d > 15 {
            return None;
        }
        value = value.checked_mul(16)? + d;
    }
    Some(value)
}

fn all_digits(s: &[u8]) -> bool
    ensures { result ≡ all_digits s.now }
{
    s.iter().all(|b| digit(*b) < 16)
}

// Writes the byte of each pair of digits to the buffer's start.
fn write_pairs(s: &[u8], out: &mut [u8])
    requires { (all_digits s.now ≡ true) × (length s.now / 2 ≤ length out.old) }
    ensures { out.new ≡ overwritten out.old (Some (digit_pairs s.now)) }
{
    for n in 0..s.len() / 2 {
        let high = digit(s[2 * n]);
        let low = digit(s[2 * n + 1]);
        out[n] = (high * 16 + low) as u8;
    }
}

// Reads bytes into the buffer's start. All tests come before the first byte is written, so that a refusal leaves the buffer as it is.
pub fn parse_bytes(s: &[u8], out: &mut [u8]) -> Option<usize>
    ensures result_value { result ≡ option_map length (fitting out.old (hex_bytes s.now)) }
    ensures out_after { out.new ≡ overwritten out.old (fitting out.old (hex_bytes s.now)) }
{
    if s == b"-".as_slice() {
        return Some(0);
    }
    if s.is_empty() {
        return None;
    }
    if s.len() % 2 != 0 {
        return None;
    }
    if !all_digits(s) {
        return None;
    }
    let count = s.len() / 2;
    if out.len() < count {
        return None;
    }
    write_pairs(s, out);
    Some(count)
}

// Reads the numbers of the fields `from`, `from` + `step` and so on, as many as the list is long, and returns whether all are numbers.
// Those before the first that is not a number are written.
pub fn parse_numbers(line: &[u8], from: usize, step: u32, out: &mut [u64]) -> bool
    ensures value { result ≡ eqb (length (numbers_of_fields line.now from step (length out.old))) (length out.old) }
    ensures out_after { out.new ≡ overwritten out.old (Some (numbers_of_fields line.now from step (length out.old))) }
{
    let mut at = from;
    for number in out.iter_mut() {
        let Some(value) = parse_number(field(line, at)) else {
            return false;
        };
        *number = value;
        at += step as usize;
    }
    true
}

// Reads a list: its count is the field `from`, and its numbers are the fields after that. A count above the length of `out` is refused.
pub fn parse_list(line: &[u8], from: usize, out: &mut [u64]) -> Option<usize>
    ensures result_value { result ≡ list_count line.now from (length out.old) }
    ensures out_after { out.new ≡ overwritten out.old (Some (list_numbers line.now from (length out.old))) }
{
    let n = parse_number(field(line, from))? as usize;
    if out.len() < n {
        return None;
    }
    if parse_numbers(line, from + 1, 1, &mut out[..n]) {
        return Some(n);
    }
    None
}
