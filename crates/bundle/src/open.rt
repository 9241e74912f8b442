// Opens a bundle: takes the five kinds in turn, each if its record comes next, and leaves nothing over.
ghost use Rattle.std.specs.Prelude.{◌≡◌};
ghost use Rattle.bundle.specs.Bundle.{body_fits, section_in};
ghost use Rattle.refusal.specs.Refusal.{outcome};
ghost use Rattle.bundle.specs.Open.{body_at, taken_at, open_bundle, Within};

use refusal::Refusal;
use util::Place;

// How many bytes a bundle may have.
pub const BUNDLE_BYTES: usize = 65536;

// The kinds of its records.
pub const IMAGE: u16 = 1;

pub const SEGMENTS: u16 = 2;

const TYPES: u16 = 3;

const FIELDS: u16 = 4;

const STRINGS: u16 = 5;

const NO_BYTES: Place = Place { start: 0, size: 0 };

// A section: its address, and its bytes, which follow the address.
#[derive(Clone, Copy)]
pub struct Section {
    pub address: u64,
    pub part: Place,
}

// Where everything lies. A part that is missing has only zeros.
#[derive(Clone, Copy)]
pub struct Layout {
    pub image: Place,
    pub segments: Place,
    pub types: Section,
    pub fields: Section,
    pub strings: Section,
}

// The body of a record, and where the next one starts. No Option: the definitions have a record that is missing as one of no bytes, as
// the layout has its part.
#[derive(Clone, Copy)]
pub struct Taken {
    pub part: Place,
    pub next: usize,
}

// Whether a body of a kind may have `length` bytes. A kind is a number: an enum would be made from each number that is read and turned back
// to be compared, which is no plainer.
#[tactic(auto, unfolding(crate::specs::Bundle::body_fits))]
pub fn body_fits(kind: u16, length: usize) -> bool
    ensures { result ≡ body_fits kind length }
{
    match kind {
        SEGMENTS => length % 32 == 0,
        TYPES.. => length >= 8,
        _ => true,
    }
}

// The body of the record at an offset, if the record is whole, of this kind, and its body fits.
fn record_body(bytes: &[u8], at: usize, kind: u16) -> Option<Place>
    ensures { result ≡ body_at kind bytes.now at }
{
    let size = util::read_u32_le_at(bytes, at)? as usize;
    let found = util::read_u16_le_at(bytes, at + 4)?;
    let start = at + 6;
    if bytes.len() - start < size {
        return None;
    }
    if found != kind {
        return None;
    }
    body_fits(kind, size).then_some(Place { start, size })
}

// That record's body, and where the next record starts.
fn take_record(bytes: &[u8], at: usize, kind: u16) -> Taken
    ensures { result ≡ taken_at kind bytes.now at }
{
    match record_body(bytes, at, kind) {
        Some(part) => Taken {
            part,
            next: part.start + part.size,
        },
        None => Taken {
            part: NO_BYTES,
            next: at,
        },
    }
}

// The section that has this body; a body of fewer than 8 bytes is a missing section.
fn section_of(bytes: &[u8], body: Place) -> Section
    requires { Within bytes.now body }
    ensures { result ≡ section_in bytes.now body }
{
    if body.size < 8 {
        return Section {
            address: 0,
            part: NO_BYTES,
        };
    }
    Section {
        address: util::read_u64_le_at(bytes, body.start).unwrap(),
        part: Place {
            start: body.start + 8,
            size: body.size - 8,
        },
    }
}

// Where everything lies in a bundle's bytes: refused as LongBundle, or as BrokenBundle by the format.
pub fn open_bundle(bytes: &[u8]) -> Result<Layout, Refusal>
    ensures { outcome result ≡ open_bundle bytes.now }
{
    if BUNDLE_BYTES < bytes.len() {
        return Err(Refusal::LongBundle);
    }
    let image = take_record(bytes, 0, IMAGE);
    let segments = take_record(bytes, image.next, SEGMENTS);
    let types = take_record(bytes, segments.next, TYPES);
    let fields = take_record(bytes, types.next, FIELDS);
    let strings = take_record(bytes, fields.next, STRINGS);
    // No bytes at all are a bundle with nothing in it: an image is required only beside other records.
    if image.part.start == 0 && 0 < bytes.len() {
        return Err(Refusal::BrokenBundle);
    }
    if strings.next < bytes.len() {
        return Err(Refusal::BrokenBundle);
    }
    Ok(Layout {
        image: image.part,
        segments: segments.part,
        types: section_of(bytes, types.part),
        fields: section_of(bytes, fields.part),
        strings: section_of(bytes, strings.part),
    })
}
