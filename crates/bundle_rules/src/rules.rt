// Which rule a bundle breaks first, and where.
ghost use Rattle.std.specs.Prelude.{◌≡◌, Some};
ghost use Rattle.bundle_rules.specs.Rule.{check_at, broken_rule, rule_text};

use bundle::{BUNDLE_BYTES, IMAGE, SEGMENTS, body_fits};
use std::fmt;

#[derive(Clone, Copy)]
pub enum Rule {
    // A record's header or body runs past the end.
    CutShort,
    // A kind outside 1 to 5.
    KindRange,
    // A kind that does not rise above the one before it.
    KindOrder,
    // A segment body not of whole segments.
    SegmentBody,
    // A led body under 8 bytes.
    LedBody,
    // There are records, and none is an image.
    NoImage,
}

impl fmt::Display for Rule {
    ghost output = { λ rule. Some (rule_text rule) };

    fn fmt<W: fmt::Write>(&self, f: &mut fmt::Formatter<W>) -> fmt::Result {
        f.write_str(match self {
            Rule::CutShort => "a record is cut short",
            Rule::KindRange => "a kind is not 1 to 5",
            Rule::KindOrder => "a kind does not rise",
            Rule::SegmentBody => "a segment body is not of whole segments of 32 bytes",
            Rule::LedBody => "a section body has no room for its address of 8 bytes",
            Rule::NoImage => "there is no image",
        })
    }
}

// The first rule that a bundle breaks, and the offset of the record that breaks it; for a missing image, the end of the bytes.
#[derive(Clone, Copy)]
pub struct Broken {
    pub rule: Rule,
    pub at: usize,
}

// A record that obeys the rules, and where the next one starts.
#[derive(Clone, Copy)]
pub struct Kept {
    pub kind: u16,
    pub next: usize,
}

// A record by itself, after one of the kind `last`.
fn check_record(bytes: &[u8], last: u16, at: usize) -> Result<Kept, Rule>
    ensures { result ≡ check_at bytes.now last at }
{
    let size = util::read_u32_le_at(bytes, at).ok_or(Rule::CutShort)? as usize;
    let kind = util::read_u16_le_at(bytes, at + 4).ok_or(Rule::CutShort)?;
    let start = at + 6;
    if bytes.len() - start < size {
        return Err(Rule::CutShort);
    }
    if kind < 1 || 5 < kind {
        return Err(Rule::KindRange);
    }
    if kind <= last {
        return Err(Rule::KindOrder);
    }
    if body_fits(kind, size) {
        return Ok(Kept {
            kind,
            next: start + size,
        });
    }
    if kind == SEGMENTS {
        Err(Rule::SegmentBody)
    } else {
        Err(Rule::LedBody)
    }
}

// The first rule that a bundle breaks, in the order of its records; none if the bundle is not refused for a rule.
pub fn broken_rule(bytes: &[u8]) -> Option<Broken>
    ensures { result ≡ broken_rule bytes.now }
{
    if BUNDLE_BYTES < bytes.len() {
        return None;
    }
    let mut image = false;
    let mut last: u16 = 0;
    let mut at: usize = 0;
    // No `for`: the next record's place is what this one tells.
    while at < bytes.len() {
        match check_record(bytes, last, at) {
            Ok(kept) => {
                image |= kept.kind == IMAGE;
                last = kept.kind;
                at = kept.next;
            }
            Err(rule) => return Some(Broken { rule, at }),
        }
    }
    if image || bytes.is_empty() {
        None
    } else {
        Some(Broken {
            rule: Rule::NoImage,
            at: bytes.len(),
        })
    }
}
