// Texts that end at a NUL or at the end of their bytes.
ghost use Rattle.std.specs.Prelude.{◌≡◌};
ghost use Rattle.util.specs.Cstr.{place, part_of, text_at, text_part, fixed_text};

// Where a text lies; its length does not count the NUL.
#[derive(Clone, Copy)]
pub struct Place {
    pub start: usize,
    pub size: usize,
}

// A part of a slice; empty if it does not lie within the slice.
pub fn part(s: &[u8], start: usize, length: usize) -> &[u8]
    ensures { result.now ≡ part_of s.now (place start length) }
{
    if start <= s.len() && length <= s.len() - start {
        &s[start..start + length]
    } else {
        &[]
    }
}

// The text at an offset, if the offset is at most the length and the text is well-formed UTF-8.
pub fn read_cstr_at(data: &[u8], off: usize) -> Option<Place>
    ensures { result ≡ text_at «data».now off }
{
    let size = utf8::scan_text(data.get(off..)?)?;
    Some(Place { start: off, size })
}

// The part of the bytes that an answer is about; empty if there is none.
pub fn text_part(data: &[u8], text: Option<Place>) -> &[u8]
    ensures { result.now ≡ text_part «data».now text }
{
    match text {
        Some(place) => part(data, place.start, place.size),
        None => &[],
    }
}

// The text at an offset as that part of the slice itself.
pub fn cstr_at(data: &[u8], off: usize) -> &[u8]
    ensures { result.now ≡ text_part «data».now (text_at «data».now off) }
{
    text_part(data, read_cstr_at(data, off))
}

// The text of a field of fixed size; empty if it is not well-formed UTF-8.
pub fn cstr_from_fixed(bytes: &[u8]) -> &[u8]
    ensures { result.now ≡ fixed_text bytes.now }
{
    cstr_at(bytes, 0)
}
