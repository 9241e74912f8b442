// What lies at a layout's places; a part that does not lie within the bytes is empty.
ghost use Rattle.std.specs.Prelude.{◌≡◌};
ghost use Rattle.bundle_parts.specs.Parts.{bytes_of, segment_bytes};

use bundle::Layout;
use util::Place;

fn part(bytes: &[u8], place: Place) -> &[u8]
    ensures { result.now ≡ bytes_of bytes.now place }
{
    util::part(bytes, place.start, place.size)
}

// A function for each part: callers name what they read, and not where the layout has it.
pub fn image_part(bytes: &[u8], layout: Layout) -> &[u8]
    ensures { result.now ≡ bytes_of bytes.now layout.image }
{
    part(bytes, layout.image)
}

// The bytes of all segments, 32 to a segment.
pub fn segments_part(bytes: &[u8], layout: Layout) -> &[u8]
    ensures { result.now ≡ segment_bytes bytes.now layout }
{
    part(bytes, layout.segments)
}

pub fn types_part(bytes: &[u8], layout: Layout) -> &[u8]
    ensures { result.now ≡ bytes_of bytes.now layout.types.part }
{
    part(bytes, layout.types.part)
}

pub fn fields_part(bytes: &[u8], layout: Layout) -> &[u8]
    ensures { result.now ≡ bytes_of bytes.now layout.fields.part }
{
    part(bytes, layout.fields.part)
}

pub fn strings_part(bytes: &[u8], layout: Layout) -> &[u8]
    ensures { result.now ≡ bytes_of bytes.now layout.strings.part }
{
    part(bytes, layout.strings.part)
}
