ghost use Rattle.entry_tables.specs.Tables.{GivesTable};
ghost use Rattle.named_records.specs.NamedRecords.{guarded_named};

use crate::records::list_records;
use entry_tables::Listed;
use field::FieldRecordIter;
use refusal::Refusal;
use runtime::{SwiftRuntime, SwiftSection};

// The records from a walk's position up to the first that cannot be read, as many as the list holds. Ten numbers for each: its address, its
// flags, the addresses of the type's name and of the field's; 1, place and length of the type's name; and for the field's name 1 for the
// image or 2 for the string section, place and length. The three numbers of a name are 0 if there is none.
pub fn named_records(
    image: &[u8],
    segments: &[u64],
    strings: &[u8],
    strings_va: u64,
    walk: FieldRecordIter,
    buffer: &mut [u64],
) -> Result<Listed, Refusal>
    ensures { GivesTable (guarded_named image.now segments.now strings.now strings_va walk buffer.old) buffer.old result buffer.new }
{
    refusal::find_fault(segments)?;
    let rt = SwiftRuntime::new(image, segments);
    let strings = SwiftSection {
        body: strings,
        vmaddr: strings_va,
    };
    Ok(list_records(&rt, strings, walk, buffer))
}
