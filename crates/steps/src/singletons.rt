// The singleton records at an address.
ghost use Rattle.std.specs.Prelude.{◌≡◌};
ghost use Rattle.refusal.specs.Refusal.{outcome, mapped, answered};
ghost use Rattle.refusal.specs.Guarded.{guarded};
ghost use Rattle.runtime.specs.Reads.{run};
ghost use Rattle.type_body.specs.Singleton.{singleton_init, singleton_pointer, init_of};

use refusal::Refusal;
use runtime::SwiftRuntime;
use type_body::SingletonMetadataInit;

// The singleton initialization at an address.
pub fn singleton_init(
    image: &[u8],
    segments: &[u64],
    address: u64,
) -> Result<Option<SingletonMetadataInit>, Refusal>
    ensures { mapped init_of (outcome result) ≡ guarded segments.now (answered (run image.now segments.now (singleton_init address))) }
{
    refusal::find_fault(segments)?;
    let rt = SwiftRuntime::new(image, segments);
    Ok(type_body::singleton_metadata_init(&rt, address))
}

// The singleton pointer at an address.
pub fn singleton_pointer(
    image: &[u8],
    segments: &[u64],
    address: u64,
) -> Result<Option<u64>, Refusal>
    ensures { outcome result ≡ guarded segments.now (answered (run image.now segments.now (singleton_pointer address))) }
{
    refusal::find_fault(segments)?;
    let rt = SwiftRuntime::new(image, segments);
    Ok(type_body::singleton_metadata_pointer(&rt, address))
}
