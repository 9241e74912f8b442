// The kind-specific half of the flags word of a class, a struct or an enum.
ghost use Rattle.std.specs.Prelude.{◌≡◌};
ghost use Rattle.context.specs.Bits.{bit, bits, low};
ghost use Rattle.context.specs.TypeContext.{initialization_of, reference_of, has_canonical_metadata_prespecializations, has_singleton_metadata_pointer, class_has_default_override_table, class_has_resilient_superclass, class_has_override_table, class_has_vTable};

use crate::bits::{bit, bits};

// The kinds of MetadataValues.h under their names there: `None` is one of its values, and no Option.
#[derive(Clone, Copy)]
pub enum MetadataInitializationKind {
    None,
    Singleton,
    Foreign,
    Other,
}

// The kind that has this number.
impl From<u8> for MetadataInitializationKind {
    ghost from_gives = { λ n kind. kind ≡ initialization_of n };

    fn from(n: u8) -> MetadataInitializationKind {
        match n {
            0 => MetadataInitializationKind::None,
            1 => MetadataInitializationKind::Singleton,
            2 => MetadataInitializationKind::Foreign,
            _ => MetadataInitializationKind::Other,
        }
    }
}

#[derive(Clone, Copy)]
pub enum TypeReferenceKind {
    DirectTypeDescriptor,
    IndirectTypeDescriptor,
    DirectObjCClassName,
    IndirectObjCClass,
    // A number that no kind has.
    Other(u8),
}

// The kind that has this number.
impl From<u8> for TypeReferenceKind {
    ghost from_gives = { λ n kind. kind ≡ reference_of n };

    fn from(n: u8) -> TypeReferenceKind {
        match n {
            0 => TypeReferenceKind::DirectTypeDescriptor,
            1 => TypeReferenceKind::IndirectTypeDescriptor,
            2 => TypeReferenceKind::DirectObjCClassName,
            3 => TypeReferenceKind::IndirectObjCClass,
            other => TypeReferenceKind::Other(other),
        }
    }
}

#[derive(Clone, Copy)]
pub struct TypeContextDescriptorFlags(pub u16);

impl TypeContextDescriptorFlags {
    pub fn metadata_initialization(self) -> MetadataInitializationKind
        ensures { result ≡ initialization_of (low 2 self.0) }
    {
        MetadataInitializationKind::from((self.0 % 4) as u8)
    }

    pub fn has_import_info(self) -> bool
        ensures { result ≡ bit 2 self.0 }
    {
        bit(self.0.into(), 2)
    }

    // One bit with two meanings: the two functions below separate them.
    pub fn has_canonical_metadata_prespecializations_or_singleton(self) -> bool
        ensures { result ≡ bit 3 self.0 }
    {
        bit(self.0.into(), 3)
    }

    pub fn has_canonical_metadata_prespecializations(self) -> bool
        ensures { result ≡ has_canonical_metadata_prespecializations self.0 }
    {
        bit(self.0.into(), 3) && self.0 % 4 != 1
    }

    pub fn has_singleton_metadata_pointer(self) -> bool
        ensures { result ≡ has_singleton_metadata_pointer self.0 }
    {
        bit(self.0.into(), 3) && self.0 % 4 == 1
    }

    pub fn has_layout_string(self) -> bool
        ensures { result ≡ bit 4 self.0 }
    {
        bit(self.0.into(), 4)
    }

    pub fn class_has_default_override_table(self) -> bool
        ensures { result ≡ class_has_default_override_table self.0 }
    {
        bit(self.0.into(), 6)
    }

    pub fn class_is_actor(self) -> bool
        ensures { result ≡ bit 7 self.0 }
    {
        bit(self.0.into(), 7)
    }

    pub fn class_is_default_actor(self) -> bool
        ensures { result ≡ bit 8 self.0 }
    {
        bit(self.0.into(), 8)
    }

    pub fn class_resilient_superclass_reference_kind(self) -> TypeReferenceKind
        ensures { result ≡ reference_of (bits 9 3 self.0) }
    {
        TypeReferenceKind::from(bits(self.0.into(), 9, 3) as u8)
    }

    pub fn class_immediate_members_negative(self) -> bool
        ensures { result ≡ bit 12 self.0 }
    {
        bit(self.0.into(), 12)
    }

    pub fn class_has_resilient_superclass(self) -> bool
        ensures { result ≡ class_has_resilient_superclass self.0 }
    {
        bit(self.0.into(), 13)
    }

    pub fn class_has_override_table(self) -> bool
        ensures { result ≡ class_has_override_table self.0 }
    {
        bit(self.0.into(), 14)
    }

    pub fn class_has_vtable(self) -> bool
        ensures { result ≡ class_has_vTable self.0 }
    {
        bit(self.0.into(), 15)
    }
}
