// What a field descriptor and its records say in numbers.
ghost use Rattle.std.specs.Prelude.{◌≡◌};
ghost use Rattle.context.specs.Bits.{bit};
ghost use Rattle.context.specs.Field.{field_kind};

use crate::bits::bit;

#[derive(Clone, Copy)]
pub enum FieldDescriptorKind {
    Struct,
    Class,
    Enum,
    MultiPayloadEnum,
    Protocol,
    ClassProtocol,
    ObjCProtocol,
    ObjCClass,
    // A number that no kind has.
    Other(u16),
}

// The kind that has this number.
impl From<u16> for FieldDescriptorKind {
    ghost from_gives = { λ raw kind. kind ≡ field_kind raw };

    fn from(raw: u16) -> FieldDescriptorKind {
        match raw {
            0 => FieldDescriptorKind::Struct,
            1 => FieldDescriptorKind::Class,
            2 => FieldDescriptorKind::Enum,
            3 => FieldDescriptorKind::MultiPayloadEnum,
            4 => FieldDescriptorKind::Protocol,
            5 => FieldDescriptorKind::ClassProtocol,
            6 => FieldDescriptorKind::ObjCProtocol,
            7 => FieldDescriptorKind::ObjCClass,
            other => FieldDescriptorKind::Other(other),
        }
    }
}

impl FieldDescriptorKind {
    // The same under darwinscope's name.
    pub fn from_bits(raw: u16) -> FieldDescriptorKind
        ensures { result ≡ field_kind raw }
    {
        FieldDescriptorKind::from(raw)
    }
}

#[derive(Clone, Copy)]
pub struct FieldRecordFlags(pub u32);

impl FieldRecordFlags {
    pub fn is_indirect_case(self) -> bool
        ensures { result ≡ bit 0 self.0 }
    {
        bit(self.0, 0)
    }

    pub fn is_var(self) -> bool
        ensures { result ≡ bit 1 self.0 }
    {
        bit(self.0, 1)
    }

    pub fn is_artificial(self) -> bool
        ensures { result ≡ bit 2 self.0 }
    {
        bit(self.0, 2)
    }
}
