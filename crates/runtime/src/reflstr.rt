ghost use Rattle.std.specs.Prelude.{◌≡◌};
ghost use Rattle.runtime.specs.FieldName.{field_name, field_name_of, name_part, section_text};
ghost use Rattle.runtime.specs.Runtime.{tried};

use crate::reads::{SwiftRuntime, SwiftSection};
use util::Place;

// Where a field's name lies: in the image, or in the string section.
#[derive(Clone, Copy)]
pub enum FieldName {
    Image(Place),
    Strings(Place),
}

// The text at an address inside the string section, whose first byte is at `vmaddr`.
fn section_text(strings: &[u8], vmaddr: u64, target_va: u64) -> Option<Place>
    ensures { result ≡ section_text strings.now vmaddr target_va }
{
    if target_va < vmaddr {
        return None;
    }
    let off = (target_va - vmaddr) as usize;
    if strings.len() <= off {
        return None;
    }
    util::read_cstr_at(strings, off)
}

impl<'a, 's> SwiftRuntime<'a, 's> {
    // The name at an address: in the image, else in the string section. A missing section is an empty one.
    pub fn lookup_field_name(&self, strings: SwiftSection, target_va: u64) -> Option<FieldName>
        ensures { field_name_of result ≡ field_name self.now.image.now (tried self.now) strings.entry.body.now strings.entry.vmaddr target_va }
    {
        if target_va == 0 {
            return None;
        }
        match self.read_cstr(target_va) {
            Some(place) => Some(FieldName::Image(place)),
            None => {
                let place = section_text(strings.body, strings.vmaddr, target_va)?;
                Some(FieldName::Strings(place))
            }
        }
    }
}

// The part of the image or of the string section that a name is: empty if there is none.
pub fn field_name_part<'a>(image: &'a [u8], strings: &'a [u8], name: Option<FieldName>) -> &'a [u8]
    ensures { result.now ≡ name_part image.now strings.now (field_name_of name) }
{
    match name {
        Some(FieldName::Image(place)) => util::part(image, place.start, place.size),
        Some(FieldName::Strings(place)) => util::part(strings, place.start, place.size),
        None => &image[..0],
    }
}
