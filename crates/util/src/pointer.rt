ghost use Rattle.std.specs.Prelude.{◌≡◌};
ghost use Rattle.util.specs.Pointer.{relative_address, relative_pointer};

// The address that a relative pointer at `base_va` refers to: the sum of both, modulo 2^64.
pub fn relative_pointer(base_va: u64, offset: i32) -> u64
    ensures { result ≡ relative_pointer base_va offset }
{
    base_va.wrapping_add_signed(i64::from(offset))
}

// The same for a pointer that may be null: an offset of 0 gives address 0.
pub fn relative_address(base_va: u64, offset: i32) -> u64
    ensures { result ≡ relative_address base_va offset }
{
    if offset == 0 {
        0
    } else {
        relative_pointer(base_va, offset)
    }
}
