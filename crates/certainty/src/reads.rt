ghost use Rattle.std.specs.Prelude.{◌≡◌, false};
ghost use Rattle.items.specs.Texts.{lookup};
ghost use Rattle.runtime.specs.Runtime.{tried};
ghost use Rattle.segment.specs.Segments.{segments_of, file_offset};
ghost use Rattle.certainty.specs.Certain.{if_there, certain};

use runtime::SwiftRuntime;

// Whether an address is not in the file, whatever else arrives.
pub fn is_nowhere(rt: &SwiftRuntime, vmaddr: u64) -> bool
    ensures { result ≡ if_there (file_offset (segments_of (tried rt.now)) vmaddr) (λ _. false) }
{
    segment::vm_to_file_offset_near(rt.segments, rt.mapping, vmaddr).is_none()
}

// Whether the text at an address is certain, or that there is none: whether its NUL arrived.
pub fn text_certain(rt: &SwiftRuntime, vmaddr: u64) -> bool
    ensures { result ≡ certain rt.now.image.now (tried rt.now) (lookup vmaddr) }
{
    if vmaddr == 0 {
        return true;
    }
    match segment::vm_to_file_offset_near(rt.segments, rt.mapping, vmaddr) {
        Some(offset) => {
            let image = rt.image;
            let place = offset as usize;
            place < image.len() && image[place..].contains(&0)
        }
        None => true,
    }
}
