// Lines and their fields.
ghost use Rattle.std.specs.Prelude.{◌≡◌, ◌<◌, length};
ghost use Rattle.test_lines.specs.Lines.{find_from, line_at_offset, after_line, field_of, first_of};

// The first place of `stop` from `at` on, or the slice's length; `at` itself if it is past the end.
pub fn find(s: &[u8], at: usize, stop: u8) -> usize
    ensures { result ≡ find_from s.now at stop }
{
    let rest = s.get(at..).unwrap_or(&[]);
    at + rest.iter().position(|b| *b == stop).unwrap_or(rest.len())
}

// The line that starts at `at`, without its newline: empty where `at` is past the end.
pub fn line_at(s: &[u8], at: usize) -> &[u8]
    ensures { result.now ≡ line_at_offset s.now at }
{
    s.get(at..find(s, at, b'\n')).unwrap_or(&[])
}

// Where the next line starts; at the end or past it if there is none.
pub fn after_line(s: &[u8], at: usize) -> usize
    ensures value { result ≡ after_line s.now at }
    ensures further { at < length s.now → at < result }
{
    let end = find(s, at, b'\n');
    if end < s.len() { end + 1 } else { end }
}

// A field by its number, from 0 on: empty if the line has fewer.
pub fn field(line: &[u8], number: usize) -> &[u8]
    ensures { result.now ≡ field_of line.now number }
{
    let mut at = 0;
    for _ in 0..number {
        let end = find(line, at, b' ');
        if end == line.len() {
            return &[];
        }
        at = end + 1;
    }
    &line[at..find(line, at, b' ')]
}

// The first numbers of a list: none if it has fewer.
pub fn first(s: &[u64], n: usize) -> &[u64]
    ensures { result.now ≡ first_of s.now n }
{
    s.get(..n).unwrap_or(&[])
}
