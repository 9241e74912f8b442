// The field descriptors, with their records.
ghost use Rattle.std.specs.Prelude.{◌≡◌};
ghost use Rattle.test_replay_full.specs.Shown.{walk_end};

use crate::{
    SHOWN, after_shown, bad_line, done, nothing, number_field, one, text_line, three, write,
};
use context::FieldDescriptorKind;
use field::{FieldDescriptor, FieldIter, FieldRecord, FieldRecordStep, FieldStep};
use runtime::{FieldName, SwiftRuntime, SwiftSection};
use std::io::Stdout;
use util::Place;

// The kind's number. The call for C adds 256 to the number of a kind that has no name. No `From`: only the crate of the kind may write that.
fn kind_number(kind: FieldDescriptorKind) -> u64 {
    match kind {
        FieldDescriptorKind::Other(number) => u64::from(number),
        _ => c_numbers::field_kind_number(kind),
    }
}

fn unreadable(out: Stdout) {
    write(out, b"unreadable\n");
}

// Records.

// Which section the name lies in, and where.
fn name_place(out: Stdout, section: u64, place: Place) {
    three(out, section, place.start as u64, place.size as u64);
}

fn name_line(out: Stdout, rt: &SwiftRuntime, strings: SwiftSection, record: FieldRecord) {
    write(out, b"name");
    match field::field_name(rt, strings, record) {
        Some(FieldName::Image(place)) => name_place(out, 1, place),
        Some(FieldName::Strings(place)) => name_place(out, 2, place),
        None => nothing(out),
    }
}

fn record_lines(out: Stdout, rt: &SwiftRuntime, strings: SwiftSection, record: FieldRecord) {
    write(out, b"record");
    one(out, u64::from(record.flags));
    text_line(out, b"type", field::record_type_name(rt, record));
    name_line(out, rt, strings, record);
}

fn records(out: Stdout, rt: &SwiftRuntime, strings: SwiftSection, descriptor: FieldDescriptor) {
    let mut walk = descriptor.records();
    let near = SwiftRuntime {
        image: rt.image,
        segments: rt.segments,
        mapping: walk.locate(rt.segments),
    };
    for _ in 0..SHOWN {
        match walk.next(&near) {
            FieldRecordStep::Record { record, next } => {
                record_lines(out, rt, strings, record);
                walk = next;
            }
            FieldRecordStep::Unreadable { next } => {
                unreadable(out);
                walk = next;
            }
            FieldRecordStep::End => return done(out),
        }
    }
    after_shown(out, descriptor.num_fields);
}

// Descriptors.

fn descriptor_line(out: Stdout, descriptor: FieldDescriptor) {
    write(out, b"descriptor");
    number_field(out, descriptor.address);
    three(
        out,
        kind_number(descriptor.kind),
        u64::from(descriptor.field_record_size),
        u64::from(descriptor.num_fields),
    );
}

fn descriptor_lines(
    out: Stdout,
    rt: &SwiftRuntime,
    strings: SwiftSection,
    descriptor: FieldDescriptor,
) {
    descriptor_line(out, descriptor);
    text_line(out, b"type", field::mangled_type_name(rt, descriptor));
    let superclass = field::superclass_mangled_name(rt, descriptor);
    text_line(out, b"superclass", superclass);
    records(out, rt, strings, descriptor);
}

fn end_line(out: Stdout) {
    write(out, b"end\n");
}

// The descriptors up to the end of the walk, from there on.
fn walk_fields(
    out: Stdout,
    rt: &SwiftRuntime,
    fields: SwiftSection,
    strings: SwiftSection,
    from: FieldIter,
) -> FieldIter
    ensures { result.at ≡ walk_end fields.entry.body.now fields.entry.vmaddr 4096 from.at }
{
    let mut walk = from;
    for _ in 0..4096u32 {
        let FieldStep { found, next } = walk.next(fields);
        let Some(descriptor) = found else {
            end_line(out);
            return next;
        };
        descriptor_lines(out, rt, strings, descriptor);
        walk = next;
    }
    bad_line(out);
    walk
}

// The descriptors of a section of fewer than 65,536 bytes: up to the end of the walk, and from there up to the next end. Returns where that
// is.
pub fn all_fields(
    out: Stdout,
    rt: &SwiftRuntime,
    fields: SwiftSection,
    strings: SwiftSection,
) -> usize
    ensures { result ≡ walk_end fields.entry.body.now fields.entry.vmaddr 4096 (walk_end fields.entry.body.now fields.entry.vmaddr 4096 0) }
{
    let stopped = walk_fields(out, rt, fields, strings, FieldIter::new());
    walk_fields(out, rt, fields, strings, stopped).at
}
