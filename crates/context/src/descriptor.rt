// The word that every context descriptor starts with.
ghost use Rattle.std.specs.Prelude.{◌≡◌};
ghost use Rattle.context.specs.Bits.{bit};
ghost use Rattle.context.specs.Context.{kind_of, context_kind, has_invertible_protocols, is_generic, kind_specific_flags, is_type, has_name};

use crate::bits::{bit, bits};
use crate::types::TypeContextDescriptorFlags;

#[derive(Clone, Copy)]
pub enum ContextDescriptorKind {
    Module,
    Extension,
    Anonymous,
    Protocol,
    OpaqueType,
    Class,
    Struct,
    Enum,
    // A number that no kind has.
    Other(u8),
}

// The kind that has this number.
impl From<u8> for ContextDescriptorKind {
    ghost from_gives = { λ n kind. kind ≡ kind_of n };

    fn from(n: u8) -> ContextDescriptorKind {
        match n {
            0 => ContextDescriptorKind::Module,
            1 => ContextDescriptorKind::Extension,
            2 => ContextDescriptorKind::Anonymous,
            3 => ContextDescriptorKind::Protocol,
            4 => ContextDescriptorKind::OpaqueType,
            16 => ContextDescriptorKind::Class,
            17 => ContextDescriptorKind::Struct,
            18 => ContextDescriptorKind::Enum,
            other => ContextDescriptorKind::Other(other),
        }
    }
}

impl ContextDescriptorKind {
    pub fn is_type(self) -> bool
        ensures { result ≡ is_type self }
    {
        matches!(
            self,
            ContextDescriptorKind::Class
                | ContextDescriptorKind::Struct
                | ContextDescriptorKind::Enum
        )
    }

    // Whether the descriptor has a name slot.
    pub fn has_name(self) -> bool
        ensures { result ≡ has_name self }
    {
        !matches!(
            self,
            ContextDescriptorKind::Anonymous
                | ContextDescriptorKind::OpaqueType
                | ContextDescriptorKind::Other(_)
        )
    }
}

#[derive(Clone, Copy)]
pub struct ContextDescriptorFlags(pub u32);

impl ContextDescriptorFlags {
    pub fn kind(self) -> ContextDescriptorKind
        ensures { result ≡ context_kind self.0 }
    {
        ContextDescriptorKind::from((self.0 % 32) as u8)
    }

    pub fn has_invertible_protocols(self) -> bool
        ensures { result ≡ has_invertible_protocols self.0 }
    {
        bit(self.0, 5)
    }

    pub fn is_unique(self) -> bool
        ensures { result ≡ bit 6 self.0 }
    {
        bit(self.0, 6)
    }

    pub fn is_generic(self) -> bool
        ensures { result ≡ is_generic self.0 }
    {
        bit(self.0, 7)
    }

    pub fn kind_specific(self) -> u16
        ensures { result ≡ kind_specific_flags self.0 }
    {
        bits(self.0, 16, 16) as u16
    }

    // The kind-specific bits as those of a type.
    pub fn type_flags(self) -> TypeContextDescriptorFlags
        ensures { result.0 ≡ kind_specific_flags self.0 }
    {
        TypeContextDescriptorFlags(self.kind_specific())
    }
}
