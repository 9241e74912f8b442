ghost use Rattle.std.specs.Prelude.{◌≡◌};
ghost use Rattle.runtime.specs.Reads.{run};
ghost use Rattle.runtime.specs.Runtime.{tried};
ghost use Rattle.typedescriptor.specs.Row.{descriptor, descriptor_of};

use runtime::SwiftRuntime;
use util::Place;

// What a type descriptor says: its address, its flags, the parent context's address (0 if it has none), and where its name lies.
#[derive(Clone, Copy)]
pub struct Row {
    pub address: u64,
    pub flags: u32,
    pub parent: u64,
    pub name: Place,
}

// The row of the type descriptor at an address. A true mapping changes no answer.
pub fn decode_type_descriptor(rt: &SwiftRuntime, descriptor_va: u64) -> Option<Row>
    ensures { descriptor_of rt.now.image.now result ≡ run rt.now.image.now (tried rt.now) (descriptor descriptor_va) }
{
    let header = rt.read_bytes(descriptor_va, 20);
    if header.len() < 20 {
        return None;
    }
    if descriptor_va > 0xffff_ffff_ffff_fff7 {
        return None;
    }
    let name_va = util::pointer_in(header, 8, descriptor_va + 8);
    let name = rt.read_cstr(name_va)?;
    Some(Row {
        address: descriptor_va,
        flags: util::u32_at(header, 0),
        parent: util::address_in(header, 4, descriptor_va + 4),
        name,
    })
}
