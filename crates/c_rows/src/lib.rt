// The calls for programs in C or Rust, on slices and numbers; the comparison in compare/ links them. Each returns a status, 0 if it
// answers, else the refusal's number, and writes its answer into the caller's array (and buffer), of which a refused call changes nothing.
// Those of this crate are exported by `c_rows_c`, since other crates use it too.
#![tactic(auto)]

mod calls;

pub use calls::{
    ANSWERED, THERE, field_name_numbers, hodrupec_field_name, hodrupec_file_offset,
    hodrupec_next_context, hodrupec_next_row, hodrupec_qualified_name, hodrupec_text, tell,
    tell_field_name, tell_text, tell_value, text_numbers, value_numbers,
};
