// The calls of the archive level for programs in C or Rust: fields, their records, field offsets, and what is certain of an image by its
// first bytes. As in `c_rows`, each returns a status, 0 if it answers, else the refusal's number, and writes its answer into the
// caller's array, of which a refused call changes nothing. What a call for C takes stands one by one: a section and its address, a walk.
#![tactic(auto)]

mod certain;
mod fields;
mod names;
mod offsets;
mod records;
