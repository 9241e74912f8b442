ghost use Rattle.std.specs.Prelude.{◌≡◌};
ghost use Rattle.runtime.specs.Reads.{run};
ghost use Rattle.runtime.specs.Runtime.{tried};
ghost use Rattle.parent.specs.Context.{header, header_of, context_read, context_of, name_at, name_read, Inside};
ghost use Rattle.context.specs.Context.{context_kind, has_name};

use context::ContextDescriptorFlags;
use runtime::SwiftRuntime;
use util::Place;

// One context of a chain: its address, its flags, its own parent's address (0 if it has none), and its name if it has one.
#[derive(Clone, Copy)]
pub struct ParentContext {
    pub address: u64,
    pub flags: u32,
    pub parent: u64,
    pub name: Option<Place>,
}

// What the first 8 bytes of a context say.
#[derive(Clone, Copy)]
pub struct ContextHeader {
    pub flags: u32,
    pub parent: u64,
}

// The header at an address. There is none at address 0, nor at or above 2^64 - 4.
pub fn read_header(rt: &SwiftRuntime, descriptor_va: u64) -> Option<ContextHeader>
    ensures { header_of descriptor_va result ≡ run rt.now.image.now (tried rt.now) (header descriptor_va) }
{
    if descriptor_va == 0 {
        return None;
    }
    let bytes = rt.read_bytes(descriptor_va, 8);
    if bytes.len() < 8 {
        return None;
    }
    if descriptor_va > 0xffff_ffff_ffff_fffb {
        return None;
    }
    Some(ContextHeader {
        flags: util::u32_at(bytes, 0),
        parent: util::address_in(bytes, 4, descriptor_va + 4),
    })
}

// Whether a context with these flags has a name.
pub fn has_name(flags: u32) -> bool
    ensures { result ≡ has_name (context_kind flags) }
{
    ContextDescriptorFlags(flags).kind().has_name()
}

// The name that the word after the context's header refers to. An offset of 0 means no name.
pub fn read_context_name(rt: &SwiftRuntime, descriptor_va: u64) -> Option<Place>
    ensures result_value { name_read rt.now.image.now result ≡ run rt.now.image.now (tried rt.now) (name_at descriptor_va) }
    ensures inside { Inside rt.now.image.now result }
{
    if descriptor_va > 0xffff_ffff_ffff_fff7 {
        return None;
    }
    let slot_va = descriptor_va + 8;
    let slot = rt.read_bytes(slot_va, 4);
    if slot.len() < 4 {
        return None;
    }
    if util::u32_at(slot, 0) == 0 {
        return None;
    }
    rt.read_cstr(util::pointer_in(slot, 0, slot_va))
}

// The context at an address.
pub fn read_context(rt: &SwiftRuntime, descriptor_va: u64) -> Option<ParentContext>
    ensures { context_of rt.now.image.now result ≡ context_read rt.now.image.now (tried rt.now) descriptor_va }
{
    let header = read_header(rt, descriptor_va)?;
    let name = if has_name(header.flags) {
        read_context_name(rt, descriptor_va)
    } else {
        None
    };
    Some(ParentContext {
        address: descriptor_va,
        flags: header.flags,
        parent: header.parent,
        name,
    })
}
