// The check that a text is well-formed UTF-8 (Unicode Table 3-7), in one walk with the search for the NUL that ends it:
// what `core::str::from_utf8` and `position` do for the Rust.
#![tactic(auto)]

ghost use Rattle.std.specs.Prelude.{◌≡◌, ◌+◌, ◌<◌, ◌≤◌, true, [], length};
ghost use Rattle.utf8.specs.Plain.{Plain};
ghost use Rattle.utf8.specs.Table.{table};
ghost use Rattle.utf8.specs.ScanAt.{ScanAt, RowOf};
ghost use Rattle.utf8.specs.Text.{text_length, following, leads};

// What a lead byte requires of the bytes after it. Three cases, so no `Option`.
#[derive(Clone, Copy)]
pub enum Lead {
    // Nothing: the byte is a sequence by itself.
    Alone,
    // A second byte between `low` and `high`, and then `more` bytes between 80 and BF.
    Tail { low: u8, high: u8, more: usize },
    // No sequence starts with the byte.
    Invalid,
}

// What Table 3-7 requires after a lead byte.
pub fn lead_limits(b: u8) -> Lead
    ensures { leads result ≡ following table b }
{
    if b < 0x80 {
        return Lead::Alone;
    }
    if b < 0xc2 {
        return Lead::Invalid;
    }
    if b < 0xe0 {
        return Lead::Tail {
            low: 0x80,
            high: 0xbf,
            more: 0,
        };
    }
    if b < 0xf0 {
        return three_bytes(b);
    }
    four_bytes(b)
}

fn three_bytes(b: u8) -> Lead
    requires { (0xe0 ≤ b) × (b < 0xf0) }
    ensures { leads result ≡ following table b }
{
    if b == 0xe0 {
        return Lead::Tail {
            low: 0xa0,
            high: 0xbf,
            more: 1,
        };
    }
    if b == 0xed {
        return Lead::Tail {
            low: 0x80,
            high: 0x9f,
            more: 1,
        };
    }
    Lead::Tail {
        low: 0x80,
        high: 0xbf,
        more: 1,
    }
}

fn four_bytes(b: u8) -> Lead
    requires { 0xf0 ≤ b }
    ensures { leads result ≡ following table b }
{
    if b == 0xf0 {
        return Lead::Tail {
            low: 0x90,
            high: 0xbf,
            more: 2,
        };
    }
    if b < 0xf4 {
        return Lead::Tail {
            low: 0x80,
            high: 0xbf,
            more: 2,
        };
    }
    if b == 0xf4 {
        return Lead::Tail {
            low: 0x80,
            high: 0x8f,
            more: 2,
        };
    }
    Lead::Invalid
}

// Whether the 8 bytes from `at` on are ASCII with no NUL among them. One test for all of them, with no branch for each.
fn plain(s: &[u8], at: usize) -> bool
    requires { at + 8 ≤ length s.now }
    ensures { result ≡ true → Plain s.now at 8 }
{
    let mut all = true;
    for k in 0..8 {
        let b = s[at + k];
        all = all & (b > 0) & (b < 0x80);
    }
    all
}

// How many bytes, eight at a time, are ASCII with no NUL among them.
fn plain_prefix(s: &[u8]) -> usize
    ensures { (result ≤ length s.now) × Plain s.now 0 result }
{
    for n in 0..s.len() / 8 {
        if !plain(s, 8 * n) {
            return 8 * n;
        }
    }
    s.len() / 8 * 8
}

// The functions below go on from where a scan stands: the place is an argument, and what is known of it a `requires`. A struct of both would be no
// plainer, since its invariant would have to name the bytes.

// How many bytes from `at` on are sequences of one row of the table: a block of 12 bytes, which is a number of sequences of two, of three and of
// four, or none. The row has lead bytes from `first` to `last`, and second bytes from `low` on.
fn row_block(s: &[u8], at: usize, first: u8, last: u8, low: u8, more: usize) -> usize
    requires { (at + 16 ≤ length s.now) × RowOf first last low more × ScanAt s.now at [] }
    ensures { (result ≤ 16) × ScanAt s.now (at + result) [] }
{
    let mut all = true;
    let mut k = 0;
    // No `for`: the step is a sequence's length.
    while k < 12 {
        let lead = s[at + k];
        let second = s[at + k + 1];
        all = all & (first <= lead) & (lead <= last) & (low <= second) & (second <= 0xbf);
        k += 2;
        for _ in 0..more {
            let c = s[at + k];
            all = all & (0x80 <= c) & (c <= 0xbf);
            k += 1;
        }
    }
    if all { k } else { 0 }
}

// Where blocks of one row end.
fn row_blocks(s: &[u8], at: usize, first: u8, last: u8, low: u8, more: usize) -> usize
    requires { (at ≤ length s.now) × RowOf first last low more × ScanAt s.now at [] }
    ensures { (at ≤ result) × (result ≤ length s.now) × ScanAt s.now result [] }
{
    let mut i = at;
    // No `for`: the next place is what a block tells.
    while 16 <= s.len() - i {
        let n = row_block(s, i, first, last, low, more);
        if n == 0 {
            return i;
        }
        i += n;
    }
    i
}

// Where blocks end that are like the sequence at `at`: of letters, or of the row that most sequences of its length are of.
fn blocks(s: &[u8], at: usize) -> usize
    requires { (at ≤ length s.now) × ScanAt s.now at [] }
    ensures { (at ≤ result) × (result ≤ length s.now) × ScanAt s.now result [] }
{
    if s.len() <= at {
        return at;
    }
    match s[at] {
        0..=0x7f => at + plain_prefix(&s[at..]),
        0x80..=0xdf => row_blocks(s, at, 0xc2, 0xdf, 0x80, 0),
        0xe0..=0xef => row_blocks(s, at, 0xe1, 0xec, 0x80, 1),
        0xf0..=0xff => row_blocks(s, at, 0xf0, 0xf0, 0x90, 2),
    }
}

// The scan from `at` on, where the first byte is that is not ASCII. Most texts have none, and stay out of it.
fn scan_from(s: &[u8], at: usize) -> Option<usize>
    requires { (at ≤ length s.now) × ScanAt s.now at [] }
    ensures { result ≡ text_length s.now }
{
    let mut i = at;
    // No `return` in place of `formed`: the exit from the walk over the continuation bytes is a form that the project keeps (docs/DECISIONS.md, "Forms").
    let mut formed = true;
    'scan: while i < s.len() {
        // Sequence by sequence for 16 bytes; then blocks are tried again. No `for`: a sequence has up to four bytes.
        let stop = i + (s.len() - i).min(16);
        while i < stop {
            let b = s[i];
            if b < 0x80 {
                if b == 0 {
                    break 'scan;
                }
                i += 1;
            } else {
                i += 1;
                match lead_limits(b) {
                    Lead::Alone => {}
                    Lead::Tail { low, high, more } => {
                        if s.len() - i <= more {
                            formed = false;
                            break 'scan;
                        }
                        let second = s[i];
                        if second < low || high < second {
                            formed = false;
                            break 'scan;
                        }
                        i += 1;
                        for _ in 0..more {
                            let c = s[i];
                            if c < 0x80 || 0xbf < c {
                                formed = false;
                                break 'scan;
                            }
                            i += 1;
                        }
                    }
                    Lead::Invalid => {
                        formed = false;
                        break 'scan;
                    }
                }
            }
        }
        i = blocks(s, i);
    }
    if formed { Some(i) } else { None }
}

// The length of the text at the slice's start, which a NUL or the slice's end ends. `None` if a sequence before the first NUL is ill-formed.
pub fn scan_text(s: &[u8]) -> Option<usize>
    ensures { result ≡ text_length s.now }
{
    for i in plain_prefix(s)..s.len() {
        let b = s[i];
        if b == 0 {
            return Some(i);
        }
        if b >= 0x80 {
            return scan_from(s, i);
        }
    }
    Some(s.len())
}
