// The lowest layer, carried over from darwinscope's src/util.rs: numbers in bytes, relative pointers, addresses, texts.
#![tactic(auto)]

mod big_endian;
mod buffer;
mod cstr;
mod header;
mod pointer;
mod read;

pub use big_endian::{read_u32_be_at, read_u64_be_at};
pub use buffer::put;
pub use cstr::{Place, cstr_at, cstr_from_fixed, part, read_cstr_at, text_part};
pub use header::{address_in, i32_at, pointer_in, u16_at, u32_at};
pub use pointer::{relative_address, relative_pointer};
pub use read::{read_i32_le_at, read_u16_le_at, read_u32_le_at, read_u64_le_at};
