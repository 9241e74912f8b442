ghost use Rattle.std.specs.Prelude.{◌≡◌};
ghost use Rattle.runtime.specs.Runtime.{tried};
ghost use Rattle.parent.specs.Context.{name_at, name};
ghost use Rattle.parent.specs.Chain.{contexts_most};
ghost use Rattle.certainty.specs.Certain.{certain};
ghost use Rattle.certainty.specs.JoinedName.{header_certain, chain_certain};

use crate::reads::{is_nowhere, text_certain};
use parent::{CONTEXTS, has_name, read_header};
use runtime::SwiftRuntime;

// Whether the name that the word after a context's header refers to is certain, or that there is none.
fn slot_name_certain(rt: &SwiftRuntime, descriptor_va: u64) -> bool
    ensures { result ≡ certain rt.now.image.now (tried rt.now) (name_at descriptor_va) }
{
    if descriptor_va > 0xffff_ffff_ffff_fff7 {
        return true;
    }
    let slot_va = descriptor_va + 8;
    let slot = rt.read_bytes(slot_va, 4);
    if slot.len() < 4 {
        return is_nowhere(rt, slot_va);
    }
    if util::u32_at(slot, 0) == 0 {
        return true;
    }
    text_certain(rt, util::pointer_in(slot, 0, slot_va))
}

// The same for a context with these flags.
fn context_name_certain(rt: &SwiftRuntime, descriptor_va: u64, flags: u32) -> bool
    ensures { result ≡ certain rt.now.image.now (tried rt.now) (name descriptor_va flags) }
{
    !has_name(flags) || slot_name_certain(rt, descriptor_va)
}

// Whether the context at an address is certain, or that there is none: then a chain ends at the address, and not at the end of what arrived.
fn header_certain(rt: &SwiftRuntime, descriptor_va: u64) -> bool
    ensures { result ≡ header_certain rt.now.image.now (tried rt.now) descriptor_va }
{
    if descriptor_va > 0xffff_ffff_ffff_fffb {
        return true;
    }
    if descriptor_va == 0 {
        return true;
    }
    let bytes = rt.read_bytes(descriptor_va, 8);
    if bytes.len() < 8 {
        return is_nowhere(rt, descriptor_va);
    }
    true
}

// Whether the first 256 contexts from an address on are certain with their names, and whether there is one more.
pub fn chain_certain(rt: &SwiftRuntime, parent_va: u64) -> bool
    ensures { result ≡ chain_certain rt.now.image.now (tried rt.now) contexts_most parent_va }
{
    let mut next = parent_va;
    for _ in 0..CONTEXTS {
        let Some(header) = read_header(rt, next) else {
            return header_certain(rt, next);
        };
        if !context_name_certain(rt, next, header.flags) {
            return false;
        }
        next = header.parent;
    }
    header_certain(rt, next)
}
