// The flags word of a protocol conformance.
ghost use Rattle.std.specs.Prelude.{◌≡◌};
ghost use Rattle.context.specs.Bits.{bit, bits};
ghost use Rattle.context.specs.TypeContext.{reference_of};

use crate::bits::{bit, bits};
use crate::types::TypeReferenceKind;

#[derive(Clone, Copy)]
pub struct ConformanceFlags(pub u32);

impl ConformanceFlags {
    // How the conforming type is referred to.
    pub fn type_reference_kind(self) -> TypeReferenceKind
        ensures { result ≡ reference_of (bits 3 3 self.0) }
    {
        TypeReferenceKind::from(bits(self.0, 3, 3) as u8)
    }

    pub fn is_retroactive(self) -> bool
        ensures { result ≡ bit 6 self.0 }
    {
        bit(self.0, 6)
    }

    pub fn is_synthesized_non_unique(self) -> bool
        ensures { result ≡ bit 7 self.0 }
    {
        bit(self.0, 7)
    }

    pub fn num_conditional_requirements(self) -> u8
        ensures { result ≡ bits 8 8 self.0 }
    {
        bits(self.0, 8, 8) as u8
    }

    pub fn has_resilient_witnesses(self) -> bool
        ensures { result ≡ bit 16 self.0 }
    {
        bit(self.0, 16)
    }

    pub fn has_generic_witness_table(self) -> bool
        ensures { result ≡ bit 17 self.0 }
    {
        bit(self.0, 17)
    }

    pub fn is_conformance_of_protocol(self) -> bool
        ensures { result ≡ bit 18 self.0 }
    {
        bit(self.0, 18)
    }

    pub fn has_global_actor_isolation(self) -> bool
        ensures { result ≡ bit 19 self.0 }
    {
        bit(self.0, 19)
    }

    pub fn num_conditional_pack_descriptors(self) -> u8
        ensures { result ≡ bits 24 8 self.0 }
    {
        bits(self.0, 24, 8) as u8
    }
}
