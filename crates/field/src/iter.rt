// The descriptors of a fields section.
ghost use Rattle.runtime.specs.Runtime.{tried};
ghost use Rattle.std.specs.Prelude.{◌≡◌, ◌+◌, ◌^◌, ◌<◌};
ghost use Rattle.runtime.specs.Reads.{text_place};
ghost use Rattle.field.specs.Fields.{field_descriptor_of, field_step, field_step_of};
ghost use Rattle.field.specs.Records.{records_of};

use crate::record::FieldRecordIter;
use context::FieldDescriptorKind;
use runtime::{SwiftRuntime, SwiftSection};
use util::Place;

// How many bytes a header has.
const HEADER_SIZE: usize = 16;

// What a header says. The names are texts at these addresses, which are 0 if there is none.
#[derive(Clone, Copy)]
pub struct FieldDescriptor {
    pub address: u64,
    pub mangled_type_name_va: u64,
    pub superclass_va: u64,
    pub kind: FieldDescriptorKind,
    pub field_record_size: u16,
    pub num_fields: u32,
}

// A walk over the section: the offset of the next header.
#[derive(Clone, Copy)]
pub struct FieldIter {
    pub at: usize,
}

// What a step gives: a descriptor, or none; and where the walk then stands.
#[derive(Clone, Copy)]
pub struct FieldStep {
    pub found: Option<FieldDescriptor>,
    pub next: FieldIter,
}

fn field_descriptor(header: &[u8], address: u64) -> FieldDescriptor
    requires { address + 4 < 2 ^ 64 }
    ensures { result ≡ field_descriptor_of address header.now }
{
    FieldDescriptor {
        address,
        mangled_type_name_va: util::address_in(header, 0, address),
        superclass_va: util::address_in(header, 4, address + 4),
        kind: FieldDescriptorKind::from_bits(util::u16_at(header, 8)),
        field_record_size: util::u16_at(header, 10),
        num_fields: util::u32_at(header, 12),
    }
}

impl FieldIter {
    pub fn new() -> FieldIter
        ensures { result.at ≡ 0 }
    {
        FieldIter { at: 0 }
    }

    // The next descriptor of a section.
    pub fn next(self, section: SwiftSection) -> FieldStep
        ensures { field_step_of result ≡ field_step section.entry.body.now section.entry.vmaddr self.at }
    {
        let fields = section.body;
        let at = self.at;
        let stays = FieldStep {
            found: None,
            next: self,
        };
        if fields.len() < HEADER_SIZE || fields.len() - HEADER_SIZE < at {
            return stays;
        }
        let header = util::part(fields, at, HEADER_SIZE);
        let records = (util::u32_at(header, 12) as usize) * (util::u16_at(header, 10) as usize);
        // An overrun: the walk stays at this header.
        if fields.len() - HEADER_SIZE - at < records {
            return stays;
        }
        let next = FieldIter {
            at: at + (HEADER_SIZE + records),
        };
        let address = section.vmaddr.wrapping_add(at as u64);
        // The superclass's offset has no address: nothing, though the walk has moved on.
        if address > 0xffff_ffff_ffff_fffb {
            return FieldStep { found: None, next };
        }
        FieldStep {
            found: Some(field_descriptor(header, address)),
            next,
        }
    }
}

impl FieldDescriptor {
    // The walk over its records, from the first one on.
    pub fn records(self) -> FieldRecordIter
        ensures { result ≡ records_of self }
    {
        // If the address after the header reaches 2^64, the Rust starts from 0.
        let base_va = self.address.checked_add(16).unwrap_or(0);
        FieldRecordIter {
            base_va,
            count: self.num_fields,
            entry_size: self.field_record_size as u32,
            cursor: 0,
        }
    }
}

pub fn mangled_type_name(rt: &SwiftRuntime, descriptor: FieldDescriptor) -> Option<Place>
    ensures { result ≡ text_place rt.now.image.now (tried rt.now) descriptor.mangled_type_name_va }
{
    rt.read_cstr(descriptor.mangled_type_name_va)
}

pub fn superclass_mangled_name(rt: &SwiftRuntime, descriptor: FieldDescriptor) -> Option<Place>
    ensures { result ≡ text_place rt.now.image.now (tried rt.now) descriptor.superclass_va }
{
    rt.read_cstr(descriptor.superclass_va)
}
