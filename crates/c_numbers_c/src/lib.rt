// The static library of the calls of `c_numbers`, for programs in C or Rust. Other crates use `c_numbers`, and a library that a crate uses
// cannot be built as a static one, so each call has its export here: the same name, parameters and clauses.
#![tactic(auto)]

ghost use Rattle.std.specs.Prelude.{◌≡◌};
ghost use Rattle.leb128.specs.Leb128.{uleb128, sleb128};
ghost use Rattle.util.specs.BigEndian.{big_at};
ghost use Rattle.util.specs.Cstr.{fixed_text};
ghost use Rattle.segment.specs.Segments.{segments_of};
ghost use Rattle.segment.specs.VmAddress.{vm_address};
ghost use Rattle.refusal.specs.Refusal.{answered, mapped};
ghost use Rattle.refusal.specs.Guarded.{guarded};
ghost use Rattle.c_rows.specs.Numbers.{Tells, value_numbers};
ghost use Rattle.c_numbers.specs.Readers.{uleb_numbers, sleb_numbers, length_numbers};
ghost use Rattle.c_numbers.specs.Flags.{context_flag_numbers, type_flag_numbers, class_flag_numbers, conformance_flag_numbers, field_kind_numbers, field_flag_numbers, method_flag_numbers};

// 1, the number at the start of the bytes, and how many bytes it has.
#[unsafe(no_mangle)]
pub extern "C" fn hodrupec_uleb128(bytes: &[u8], out: &mut [u64; 3]) -> u64
    ensures { (result ≡ 0) × (out.new ≡ uleb_numbers (uleb128 bytes.now)) }
{
    c_numbers::hodrupec_uleb128(bytes, out)
}

// The same for a signed number, as its 64 bits.
#[unsafe(no_mangle)]
pub extern "C" fn hodrupec_sleb128(bytes: &[u8], out: &mut [u64; 3]) -> u64
    ensures { (result ≡ 0) × (out.new ≡ sleb_numbers (sleb128 bytes.now)) }
{
    c_numbers::hodrupec_sleb128(bytes, out)
}

// 1 and the number at an offset, the highest byte first.
#[unsafe(no_mangle)]
pub extern "C" fn hodrupec_u32_be(data: &[u8], off: usize, out: &mut [u64; 2]) -> u64
    ensures { (result ≡ 0) × (out.new ≡ value_numbers (big_at 4 «data».now off)) }
{
    c_numbers::hodrupec_u32_be(data, off, out)
}

#[unsafe(no_mangle)]
pub extern "C" fn hodrupec_u64_be(data: &[u8], off: usize, out: &mut [u64; 2]) -> u64
    ensures { (result ≡ 0) × (out.new ≡ value_numbers (big_at 8 «data».now off)) }
{
    c_numbers::hodrupec_u64_be(data, off, out)
}

// 1 and the length of the text at the start of a field of fixed size.
#[unsafe(no_mangle)]
pub extern "C" fn hodrupec_fixed_text(bytes: &[u8], out: &mut [u64; 2]) -> u64
    ensures { (result ≡ 0) × (out.new ≡ length_numbers (fixed_text bytes.now)) }
{
    c_numbers::hodrupec_fixed_text(bytes, out)
}

// 1 and the address of a file offset.
#[unsafe(no_mangle)]
pub extern "C" fn hodrupec_vm_address(segments: &[u64], offset: u64, out: &mut [u64; 2]) -> u64
    ensures { Tells (mapped value_numbers (guarded segments.now (answered (vm_address (segments_of segments.now) offset)))) out.old result out.new }
{
    c_numbers::hodrupec_vm_address(segments, offset, out)
}

// 1, the kind, whether it is a type's, invertible protocols, unique, generic, the kind-specific half, and that half as a type's flags.
#[unsafe(no_mangle)]
pub extern "C" fn hodrupec_context_flags(word: u32, out: &mut [u64; 8]) -> u64
    ensures { (result ≡ 0) × (out.new ≡ context_flag_numbers word) }
{
    c_numbers::hodrupec_context_flags(word, out)
}

// 1, the initialization, import info, bit 3 and its two meanings, layout string.
#[unsafe(no_mangle)]
pub extern "C" fn hodrupec_type_flags(word: u16, out: &mut [u64; 7]) -> u64
    ensures { (result ≡ 0) × (out.new ≡ type_flag_numbers word) }
{
    c_numbers::hodrupec_type_flags(word, out)
}

// For a class: 1, default override table, actor, default actor, the kind of the reference to the superclass, negative members, resilient
// superclass, override table, vtable.
#[unsafe(no_mangle)]
pub extern "C" fn hodrupec_class_flags(word: u16, out: &mut [u64; 9]) -> u64
    ensures { (result ≡ 0) × (out.new ≡ class_flag_numbers word) }
{
    c_numbers::hodrupec_class_flags(word, out)
}

// 1, the kind of the reference to the type, retroactive, synthesized, conditional requirements, resilient witnesses, generic witness table, of a
// protocol, global actor isolation, conditional pack descriptors.
#[unsafe(no_mangle)]
pub extern "C" fn hodrupec_conformance_flags(word: u32, out: &mut [u64; 10]) -> u64
    ensures { (result ≡ 0) × (out.new ≡ conformance_flag_numbers word) }
{
    c_numbers::hodrupec_conformance_flags(word, out)
}

// 1 and the kind of a field descriptor.
#[unsafe(no_mangle)]
pub extern "C" fn hodrupec_field_kind(raw: u16, out: &mut [u64; 2]) -> u64
    ensures { (result ≡ 0) × (out.new ≡ field_kind_numbers raw) }
{
    c_numbers::hodrupec_field_kind(raw, out)
}

// 1, indirect case, var, artificial.
#[unsafe(no_mangle)]
pub extern "C" fn hodrupec_field_flags(word: u32, out: &mut [u64; 4]) -> u64
    ensures { (result ≡ 0) × (out.new ≡ field_flag_numbers word) }
{
    c_numbers::hodrupec_field_flags(word, out)
}

// 1, the kind, instance, dynamic, async, extended context, extra discriminator.
#[unsafe(no_mangle)]
pub extern "C" fn hodrupec_method_flags(word: u32, out: &mut [u64; 7]) -> u64
    ensures { (result ≡ 0) × (out.new ≡ method_flag_numbers word) }
{
    c_numbers::hodrupec_method_flags(word, out)
}
