// The singleton records at an address.
ghost use Rattle.std.specs.Prelude.{◌≡◌};
ghost use Rattle.refusal.specs.Refusal.{answered, mapped};
ghost use Rattle.runtime.specs.Reads.{run};
ghost use Rattle.type_body.specs.Singleton.{init_of, singleton_init, singleton_pointer};
ghost use Rattle.refusal.specs.Guarded.{guarded};
ghost use Rattle.c_rows.specs.Numbers.{Tells, value_numbers};
ghost use Rattle.c_bodies.specs.Singletons.{init_numbers};

use c_rows::THERE;
use type_body::SingletonMetadataInit;

fn init_numbers(init: Option<SingletonMetadataInit>) -> [u64; 4]
    ensures { result ≡ init_numbers (init_of init) }
{
    match init {
        Some(init) => [
            THERE,
            init.initialization_cache_va,
            init.incomplete_metadata_va,
            init.completion_function_va,
        ],
        None => [0; 4],
    }
}

// 1, and the addresses of the initialization cache, the incomplete metadata and the completion function, each 0 if there is none.
#[unsafe(no_mangle)]
pub extern "C" fn hodrupec_singleton_init(
    image: &[u8],
    segments: &[u64],
    address: u64,
    out: &mut [u64; 4],
) -> u64
    ensures { Tells (mapped init_numbers (guarded segments.now (answered (run image.now segments.now (singleton_init address))))) out.old result out.new }
{
    let init = steps::singleton_init(image, segments, address);
    c_rows::tell(init.map(init_numbers), out)
}

// 1 and the metadata's address.
#[unsafe(no_mangle)]
pub extern "C" fn hodrupec_singleton_pointer(
    image: &[u8],
    segments: &[u64],
    address: u64,
    out: &mut [u64; 2],
) -> u64
    ensures { Tells (mapped value_numbers (guarded segments.now (answered (run image.now segments.now (singleton_pointer address))))) out.old result out.new }
{
    c_rows::tell_value(steps::singleton_pointer(image, segments, address), out)
}
