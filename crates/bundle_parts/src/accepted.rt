// Which bundles are accepted: those that open and whose segments a call accepts.
ghost use Rattle.std.specs.Prelude.{◌≡◌};
ghost use Rattle.refusal.specs.Refusal.{outcome};
ghost use Rattle.bundle_parts.specs.Accepted.{accept_bundle};

use crate::segments::{SEGMENT_NUMBERS, segment_numbers};
use bundle::Layout;
use refusal::Refusal;

// Opens a bundle, and tests its segments.
pub fn accept_bundle(bytes: &[u8]) -> Result<Layout, Refusal>
    ensures { outcome result ≡ accept_bundle bytes.now }
{
    let layout = bundle::open_bundle(bytes)?;
    // Memory is fixed: room for the numbers of every bundle, and how many of them this one has.
    let mut numbers = [0u64; SEGMENT_NUMBERS];
    let count = segment_numbers(bytes, layout, &mut numbers);
    refusal::find_fault(&numbers[..count])?;
    Ok(layout)
}
