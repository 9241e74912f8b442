// The kinds of blocks, in the order in which they follow a descriptor.
#[derive(Clone, Copy)]
pub enum BlockKind {
    Generic,
    ResilientSuperclass,
    ForeignMetadataInit,
    SingletonMetadataInit,
    VTable,
    OverrideTable,
    ObjcResilientClassStub,
    Prespecializations,
    InvertibleProtocolSet,
    SingletonMetadataPointer,
    DefaultOverrideTable,
}

// What is recorded of a block: where it lies; for a table, where its entries lie and how many there are, with a vtable's offset (0
// in every other table); or the invertible set, with the number of protocols it names.
#[derive(Clone, Copy)]
pub enum BlockBody {
    At(u64),
    Table {
        offset: u32,
        count: u32,
        entries_va: u64,
    },
    Set {
        bits: u16,
        protocols: u32,
    },
}

#[derive(Clone, Copy)]
pub struct Block {
    pub kind: BlockKind,
    pub body: BlockBody,
}

// A block, and the address where the next one starts: none if it ends past the last address.
#[derive(Clone, Copy)]
pub struct Ended {
    pub block: Block,
    pub end: Option<u64>,
}
