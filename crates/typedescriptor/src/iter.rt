ghost use Rattle.std.specs.Prelude.{◌≡◌};
ghost use Rattle.runtime.specs.Reads.{run};
ghost use Rattle.runtime.specs.Runtime.{tried};
ghost use Rattle.typedescriptor.specs.Moving.{RowMoved};
ghost use Rattle.typedescriptor.specs.Row.{descriptor_of};
ghost use Rattle.typedescriptor.specs.Slots.{slot_descriptor, slot_row, next_row, type_step_of};

use crate::descriptor::{Row, decode_type_descriptor};
use runtime::{SwiftRuntime, SwiftSection};
use segment::{Mapping, NO_MAPPING};

// A walk over the types section: the number of the next slot to read.
#[derive(Clone, Copy)]
pub struct TypeIter {
    pub slot: usize,
}

// What a step of the walk gives: the next row with its slot's number, and the walk from there on.
#[derive(Clone, Copy)]
pub struct TypeStep {
    pub slot: usize,
    pub row: Row,
    pub next: TypeIter,
}

// The address of the descriptor that a slot of a types section refers to. There is none for offset 0, nor past the section's end.
pub fn slot_descriptor(types: SwiftSection, slot: usize) -> Option<u64>
    ensures { result ≡ slot_descriptor types.entry.body.now types.entry.vmaddr slot }
{
    let slots = types.body;
    if slots.len() / 4 <= slot {
        return None;
    }
    let off = 4 * slot;
    let pointer = &slots[off..off + 4];
    if util::u32_at(pointer, 0) == 0 {
        return None;
    }
    let slot_va = std::num::wrapping_add_u64(types.vmaddr, off as u64);
    Some(util::pointer_in(pointer, 0, slot_va))
}

// The row of one slot of a types section. A true mapping changes no answer.
pub fn slot_row(rt: &SwiftRuntime, types: SwiftSection, slot: usize) -> Option<Row>
    ensures { descriptor_of rt.now.image.now result ≡ run rt.now.image.now (tried rt.now) (slot_row types.entry.body.now types.entry.vmaddr slot) }
{
    let address = slot_descriptor(types, slot)?;
    decode_type_descriptor(rt, address)
}

// The row of a slot, and the mapping around its descriptor for what is read next.
#[derive(Clone, Copy)]
pub struct SlotRow {
    pub found: Option<Row>,
    pub mapping: Mapping,
}

// The same for one slot after the other: the mapping moves to the descriptor before its row is read.
pub fn slot_row_moving(rt: &SwiftRuntime, types: SwiftSection, slot: usize) -> SlotRow
    ensures { RowMoved rt.now.image.now rt.now.segments.now rt.now.mapping types.entry.body.now types.entry.vmaddr slot result.found result.mapping }
{
    let still = SlotRow {
        found: None,
        mapping: rt.mapping,
    };
    let Some(address) = slot_descriptor(types, slot) else {
        return still;
    };
    match segment::locate_near(rt.segments, rt.mapping, address) {
        Some(mapping) => {
            let near = SwiftRuntime { mapping, ..*rt };
            SlotRow {
                found: decode_type_descriptor(&near, address),
                mapping,
            }
        }
        None => still,
    }
}

impl TypeIter {
    pub fn new() -> TypeIter
        ensures { result.slot ≡ 0 }
    {
        TypeIter { slot: 0 }
    }

    // The next row, by the segments alone. A slot without a row is passed over. What lies around a descriptor is found with it, so that the
    // segments are walked once for it and its name.
    pub fn next(self, rt: &SwiftRuntime, types: SwiftSection) -> Option<TypeStep>
        ensures { type_step_of rt.now.image.now result ≡ next_row rt.now.image.now rt.now.segments.now types.entry.body.now types.entry.vmaddr self.slot }
    {
        let plain = SwiftRuntime {
            mapping: NO_MAPPING,
            ..*rt
        };
        let count = types.body.len() / 4;
        for slot in self.slot..count {
            let step = slot_row_moving(&plain, types, slot);
            if let Some(row) = step.found {
                return Some(TypeStep {
                    slot,
                    row,
                    next: TypeIter { slot: slot + 1 },
                });
            }
        }
        None
    }
}
