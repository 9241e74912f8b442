// The flag words, each accessor's answer as a number, which the comparison compares with the Rust's. A kind is its place in the
// enumeration, or 256 plus its number if no kind has it. The first number is always 1: every word has an answer. A call's status is a
// number, since programs in C read it.
ghost use Rattle.std.specs.Prelude.{◌≡◌};
ghost use Rattle.c_numbers.specs.Flags.{kind_number, initialization_number, reference_number, field_kind_number, method_number, context_flag_numbers, type_flag_numbers, class_flag_numbers, conformance_flag_numbers, field_kind_numbers, field_flag_numbers, method_flag_numbers};

use c_rows::{ANSWERED, THERE};
use context::{
    ConformanceFlags, ContextDescriptorFlags, ContextDescriptorKind, FieldDescriptorKind,
    FieldRecordFlags, MetadataInitializationKind, MethodDescriptorFlags, SwiftMethodKind,
    TypeContextDescriptorFlags, TypeReferenceKind,
};

// The numbers of the kinds are functions and not `From`: Rust lets only the crate of the kinds write that, and the numbers are these calls' own.
fn kind_number(kind: ContextDescriptorKind) -> u64
    ensures { result ≡ kind_number kind }
{
    match kind {
        ContextDescriptorKind::Module => 0,
        ContextDescriptorKind::Extension => 1,
        ContextDescriptorKind::Anonymous => 2,
        ContextDescriptorKind::Protocol => 3,
        ContextDescriptorKind::OpaqueType => 4,
        ContextDescriptorKind::Class => 5,
        ContextDescriptorKind::Struct => 6,
        ContextDescriptorKind::Enum => 7,
        ContextDescriptorKind::Other(n) => 256 + u64::from(n),
    }
}

fn initialization_number(kind: MetadataInitializationKind) -> u64
    ensures { result ≡ initialization_number kind }
{
    match kind {
        MetadataInitializationKind::None => 0,
        MetadataInitializationKind::Singleton => 1,
        MetadataInitializationKind::Foreign => 2,
        MetadataInitializationKind::Other => 3,
    }
}

fn reference_number(kind: TypeReferenceKind) -> u64
    ensures { result ≡ reference_number kind }
{
    match kind {
        TypeReferenceKind::DirectTypeDescriptor => 0,
        TypeReferenceKind::IndirectTypeDescriptor => 1,
        TypeReferenceKind::DirectObjCClassName => 2,
        TypeReferenceKind::IndirectObjCClass => 3,
        TypeReferenceKind::Other(n) => 256 + u64::from(n),
    }
}

pub fn field_kind_number(kind: FieldDescriptorKind) -> u64
    ensures { result ≡ field_kind_number kind }
{
    match kind {
        FieldDescriptorKind::Struct => 0,
        FieldDescriptorKind::Class => 1,
        FieldDescriptorKind::Enum => 2,
        FieldDescriptorKind::MultiPayloadEnum => 3,
        FieldDescriptorKind::Protocol => 4,
        FieldDescriptorKind::ClassProtocol => 5,
        FieldDescriptorKind::ObjCProtocol => 6,
        FieldDescriptorKind::ObjCClass => 7,
        FieldDescriptorKind::Other(n) => 256 + u64::from(n),
    }
}

fn method_number(kind: SwiftMethodKind) -> u64
    ensures { result ≡ method_number kind }
{
    match kind {
        SwiftMethodKind::Method => 0,
        SwiftMethodKind::Init => 1,
        SwiftMethodKind::Getter => 2,
        SwiftMethodKind::Setter => 3,
        SwiftMethodKind::ModifyCoroutine => 4,
        SwiftMethodKind::ReadCoroutine => 5,
        SwiftMethodKind::Other(n) => 256 + u64::from(n),
    }
}

// 1, the kind, whether it is a type's, invertible protocols, unique, generic, the kind-specific half, and that half as a type's flags.
#[tactic(auto, unfolding(crate::specs::Flags::context_flag_numbers))]
pub fn hodrupec_context_flags(word: u32, out: &mut [u64; 8]) -> u64
    ensures { (result ≡ 0) × (out.new ≡ context_flag_numbers word) }
{
    let flags = ContextDescriptorFlags(word);
    let kind = flags.kind();
    let type_flags = flags.type_flags();
    *out = [
        THERE,
        kind_number(kind),
        u64::from(kind.is_type()),
        u64::from(flags.has_invertible_protocols()),
        u64::from(flags.is_unique()),
        u64::from(flags.is_generic()),
        u64::from(flags.kind_specific()),
        u64::from(type_flags.0),
    ];
    ANSWERED
}

// 1, the initialization, import info, bit 3 and its two meanings, layout string.
#[tactic(auto, unfolding(crate::specs::Flags::type_flag_numbers))]
pub fn hodrupec_type_flags(word: u16, out: &mut [u64; 7]) -> u64
    ensures { (result ≡ 0) × (out.new ≡ type_flag_numbers word) }
{
    let flags = TypeContextDescriptorFlags(word);
    *out = [
        THERE,
        initialization_number(flags.metadata_initialization()),
        u64::from(flags.has_import_info()),
        u64::from(flags.has_canonical_metadata_prespecializations_or_singleton()),
        u64::from(flags.has_canonical_metadata_prespecializations()),
        u64::from(flags.has_singleton_metadata_pointer()),
        u64::from(flags.has_layout_string()),
    ];
    ANSWERED
}

// For a class: 1, default override table, actor, default actor, the kind of the reference to the superclass, negative members, resilient
// superclass, override table, vtable.
#[tactic(auto, unfolding(crate::specs::Flags::class_flag_numbers))]
pub fn hodrupec_class_flags(word: u16, out: &mut [u64; 9]) -> u64
    ensures { (result ≡ 0) × (out.new ≡ class_flag_numbers word) }
{
    let flags = TypeContextDescriptorFlags(word);
    *out = [
        THERE,
        u64::from(flags.class_has_default_override_table()),
        u64::from(flags.class_is_actor()),
        u64::from(flags.class_is_default_actor()),
        reference_number(flags.class_resilient_superclass_reference_kind()),
        u64::from(flags.class_immediate_members_negative()),
        u64::from(flags.class_has_resilient_superclass()),
        u64::from(flags.class_has_override_table()),
        u64::from(flags.class_has_vtable()),
    ];
    ANSWERED
}

// 1, the kind of the reference to the type, retroactive, synthesized, conditional requirements, resilient witnesses, generic witness table, of a
// protocol, global actor isolation, conditional pack descriptors.
#[tactic(auto, unfolding(crate::specs::Flags::conformance_flag_numbers))]
pub fn hodrupec_conformance_flags(word: u32, out: &mut [u64; 10]) -> u64
    ensures { (result ≡ 0) × (out.new ≡ conformance_flag_numbers word) }
{
    let flags = ConformanceFlags(word);
    *out = [
        THERE,
        reference_number(flags.type_reference_kind()),
        u64::from(flags.is_retroactive()),
        u64::from(flags.is_synthesized_non_unique()),
        u64::from(flags.num_conditional_requirements()),
        u64::from(flags.has_resilient_witnesses()),
        u64::from(flags.has_generic_witness_table()),
        u64::from(flags.is_conformance_of_protocol()),
        u64::from(flags.has_global_actor_isolation()),
        u64::from(flags.num_conditional_pack_descriptors()),
    ];
    ANSWERED
}

// 1 and the kind of a field descriptor.
#[tactic(auto, unfolding(crate::specs::Flags::field_kind_numbers))]
pub fn hodrupec_field_kind(raw: u16, out: &mut [u64; 2]) -> u64
    ensures { (result ≡ 0) × (out.new ≡ field_kind_numbers raw) }
{
    *out = [
        THERE,
        field_kind_number(FieldDescriptorKind::from_bits(raw)),
    ];
    ANSWERED
}

// 1, indirect case, var, artificial.
#[tactic(auto, unfolding(crate::specs::Flags::field_flag_numbers))]
pub fn hodrupec_field_flags(word: u32, out: &mut [u64; 4]) -> u64
    ensures { (result ≡ 0) × (out.new ≡ field_flag_numbers word) }
{
    let flags = FieldRecordFlags(word);
    *out = [
        THERE,
        u64::from(flags.is_indirect_case()),
        u64::from(flags.is_var()),
        u64::from(flags.is_artificial()),
    ];
    ANSWERED
}

// 1, the kind, instance, dynamic, async, extended context, extra discriminator.
#[tactic(auto, unfolding(crate::specs::Flags::method_flag_numbers))]
pub fn hodrupec_method_flags(word: u32, out: &mut [u64; 7]) -> u64
    ensures { (result ≡ 0) × (out.new ≡ method_flag_numbers word) }
{
    let flags = MethodDescriptorFlags(word);
    *out = [
        THERE,
        method_number(flags.kind()),
        u64::from(flags.is_instance()),
        u64::from(flags.is_dynamic()),
        u64::from(flags.is_async()),
        u64::from(flags.has_extended_context()),
        u64::from(flags.extra_discriminator()),
    ];
    ANSWERED
}
