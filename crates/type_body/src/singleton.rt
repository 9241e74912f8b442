ghost use Rattle.runtime.specs.Runtime.{tried};
ghost use Rattle.std.specs.Prelude.{◌≡◌};
ghost use Rattle.runtime.specs.Reads.{run};
ghost use Rattle.type_body.specs.Singleton.{slot_target, singleton_init, init_of, singleton_pointer};

use runtime::SwiftRuntime;

// The three addresses of a singleton initialization, each 0 if its offset is 0.
#[derive(Clone, Copy)]
pub struct SingletonMetadataInit {
    pub initialization_cache_va: u64,
    pub incomplete_metadata_va: u64,
    pub completion_function_va: u64,
}

// What the offset at `off` of the record at `address` refers to. An offset of 0 refers to address 0, wherever its slot lies; the slot of
// any other offset must lie below 2^64.
fn target_in(bytes: &[u8], off: usize, address: u64) -> Option<u64>
    ensures { result ≡ slot_target address bytes.now off }
{
    if util::u32_at(bytes, off) == 0 {
        return Some(0);
    }
    let slot_va = address.checked_add(off as u64)?;
    Some(util::pointer_in(bytes, off, slot_va))
}

// The 12 bytes of the singleton initialization at an address.
pub fn singleton_metadata_init(rt: &SwiftRuntime, address: u64) -> Option<SingletonMetadataInit>
    ensures { init_of result ≡ run rt.now.image.now (tried rt.now) (singleton_init address) }
{
    let bytes = rt.read_bytes(address, 12);
    if bytes.len() < 12 {
        return None;
    }
    Some(SingletonMetadataInit {
        initialization_cache_va: target_in(bytes, 0, address)?,
        incomplete_metadata_va: target_in(bytes, 4, address)?,
        completion_function_va: target_in(bytes, 8, address)?,
    })
}

// The address that the 4 bytes of the singleton pointer at an address refer to: that of a singleton's metadata, 0 if the offset is 0.
pub fn singleton_metadata_pointer(rt: &SwiftRuntime, address: u64) -> Option<u64>
    ensures { result ≡ run rt.now.image.now (tried rt.now) (singleton_pointer address) }
{
    let bytes = rt.read_bytes(address, 4);
    if bytes.len() < 4 {
        return None;
    }
    Some(util::address_in(bytes, 0, address))
}
