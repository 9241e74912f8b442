// Which blocks a descriptor has.
ghost use Rattle.std.specs.Prelude.{◌≡◌};
ghost use Rattle.classtrailers.specs.Blocks.{row_at, row_number, kind_numbered, kind_there};

use crate::block::BlockKind;
use context::{ContextDescriptorFlags, MetadataInitializationKind};

// What decides it: the flags word, whether it is a class, and the extra class flags (0 if there are none). A caller in C hands the three in
// by themselves and gets them back as they were, so none of them is made from another.
#[derive(Clone, Copy)]
pub struct Trailing {
    pub flags: u32,
    pub is_class: bool,
    pub extra: u32,
}

// The kinds in the order in which their blocks follow each other: a kind stands at its number.
const KINDS: [BlockKind; 11] = [
    BlockKind::Generic,
    BlockKind::ResilientSuperclass,
    BlockKind::ForeignMetadataInit,
    BlockKind::SingletonMetadataInit,
    BlockKind::VTable,
    BlockKind::OverrideTable,
    BlockKind::ObjcResilientClassStub,
    BlockKind::Prespecializations,
    BlockKind::InvertibleProtocolSet,
    BlockKind::SingletonMetadataPointer,
    BlockKind::DefaultOverrideTable,
];

// The number of a kind in the order in which blocks follow each other.
pub fn number_of(kind: BlockKind) -> u32
    ensures { result ≡ row_number kind }
{
    kind as u32
}

// The kind with a number.
#[tactic(auto, unfolding(crate::specs::Blocks::kind_numbered))]
pub fn kind_numbered(number: u32) -> Option<BlockKind>
    ensures { result ≡ kind_numbered number }
{
    KINDS.get(number as usize).copied()
}

// Whether there is a block of a kind.
pub fn has_block(trailing: Trailing, kind: BlockKind) -> bool
    ensures { result ≡ (row_at (row_number kind)).there trailing }
{
    let flags = ContextDescriptorFlags(trailing.flags);
    let types = flags.type_flags();
    let class = trailing.is_class;
    match kind {
        BlockKind::Generic => flags.is_generic(),
        BlockKind::ResilientSuperclass => class & types.class_has_resilient_superclass(),
        BlockKind::ForeignMetadataInit => matches!(
            types.metadata_initialization(),
            MetadataInitializationKind::Foreign
        ),
        BlockKind::SingletonMetadataInit => matches!(
            types.metadata_initialization(),
            MetadataInitializationKind::Singleton
        ),
        BlockKind::VTable => class & types.class_has_vtable(),
        BlockKind::OverrideTable => class & types.class_has_override_table(),
        BlockKind::ObjcResilientClassStub => {
            class & types.class_has_resilient_superclass() & (trailing.extra % 2 == 1)
        }
        BlockKind::Prespecializations => types.has_canonical_metadata_prespecializations(),
        BlockKind::InvertibleProtocolSet => flags.has_invertible_protocols(),
        BlockKind::SingletonMetadataPointer => types.has_singleton_metadata_pointer(),
        BlockKind::DefaultOverrideTable => class & types.class_has_default_override_table(),
    }
}

// The kind with a number, if there is a block of it.
#[tactic(auto, using(crate::proofs::CallsLaws::kind_kept, crate::proofs::CallsLaws::no_kind_there))]
pub fn kind_there(trailing: Trailing, number: u32) -> Option<BlockKind>
    ensures { result ≡ kind_there trailing number }
{
    let kind = kind_numbered(number)?;
    has_block(trailing, kind).then_some(kind)
}
