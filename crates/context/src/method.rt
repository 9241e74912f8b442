// The flags word of a method descriptor.
ghost use Rattle.std.specs.Prelude.{◌≡◌};
ghost use Rattle.context.specs.Bits.{bit, bits, low};
ghost use Rattle.context.specs.Method.{method_of};

use crate::bits::{bit, bits};

#[derive(Clone, Copy)]
pub enum SwiftMethodKind {
    Method,
    Init,
    Getter,
    Setter,
    ModifyCoroutine,
    ReadCoroutine,
    // A number that no kind has.
    Other(u8),
}

// The kind that has this number.
impl From<u8> for SwiftMethodKind {
    ghost from_gives = { λ n kind. kind ≡ method_of n };

    fn from(n: u8) -> SwiftMethodKind {
        match n {
            0 => SwiftMethodKind::Method,
            1 => SwiftMethodKind::Init,
            2 => SwiftMethodKind::Getter,
            3 => SwiftMethodKind::Setter,
            4 => SwiftMethodKind::ModifyCoroutine,
            5 => SwiftMethodKind::ReadCoroutine,
            other => SwiftMethodKind::Other(other),
        }
    }
}

#[derive(Clone, Copy)]
pub struct MethodDescriptorFlags(pub u32);

impl MethodDescriptorFlags {
    pub fn kind(self) -> SwiftMethodKind
        ensures { result ≡ method_of (low 4 self.0) }
    {
        SwiftMethodKind::from((self.0 % 16) as u8)
    }

    pub fn is_instance(self) -> bool
        ensures { result ≡ bit 4 self.0 }
    {
        bit(self.0, 4)
    }

    pub fn is_dynamic(self) -> bool
        ensures { result ≡ bit 5 self.0 }
    {
        bit(self.0, 5)
    }

    pub fn is_async(self) -> bool
        ensures { result ≡ bit 6 self.0 }
    {
        bit(self.0, 6)
    }

    pub fn has_extended_context(self) -> bool
        ensures { result ≡ bit 7 self.0 }
    {
        bit(self.0, 7)
    }

    pub fn extra_discriminator(self) -> u16
        ensures { result ≡ bits 16 16 self.0 }
    {
        bits(self.0, 16, 16) as u16
    }
}
