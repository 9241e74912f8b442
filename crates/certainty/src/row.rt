ghost use Rattle.std.specs.Prelude.{◌≡◌};
ghost use Rattle.runtime.specs.Runtime.{tried};
ghost use Rattle.typedescriptor.specs.Row.{descriptor};
ghost use Rattle.typedescriptor.specs.Slots.{slot_row};
ghost use Rattle.certainty.specs.Certain.{certain};
ghost use Rattle.certainty.specs.JoinedName.{name_certain};

use crate::chain::chain_certain;
use crate::reads::{is_nowhere, text_certain};
use runtime::{SwiftRuntime, SwiftSection};

// Whether the row of the type descriptor at an address is certain, or that there is none.
fn descriptor_certain(rt: &SwiftRuntime, descriptor_va: u64) -> bool
    ensures { result ≡ certain rt.now.image.now (tried rt.now) (descriptor descriptor_va) }
{
    let header = rt.read_bytes(descriptor_va, 20);
    if header.len() < 20 {
        return is_nowhere(rt, descriptor_va);
    }
    if descriptor_va > 0xffff_ffff_ffff_fff7 {
        return true;
    }
    text_certain(rt, util::pointer_in(header, 8, descriptor_va + 8))
}

// The same for a slot of a types section.
pub fn slot_certain(rt: &SwiftRuntime, types: SwiftSection, slot: usize) -> bool
    ensures { result ≡ certain rt.now.image.now (tried rt.now) (slot_row types.entry.body.now types.entry.vmaddr slot) }
{
    match typedescriptor::slot_descriptor(types, slot) {
        Some(address) => descriptor_certain(rt, address),
        None => true,
    }
}

// The same for the row with its joined name.
pub fn joined_name_certain(rt: &SwiftRuntime, types: SwiftSection, slot: usize) -> bool
    ensures { result ≡ name_certain rt.now.image.now (tried rt.now) types.entry.body.now types.entry.vmaddr slot }
{
    if !slot_certain(rt, types, slot) {
        return false;
    }
    match typedescriptor::slot_row(rt, types, slot) {
        Some(row) => chain_certain(rt, row.parent),
        None => true,
    }
}
