// What a call refuses: the refusals of every call, the number of each, and the test of a call's segments.
#![tactic(auto)]

ghost use Rattle.std.specs.Prelude.{◌≡◌};
ghost use Rattle.std.specs.List.{count_by, position_from};
ghost use Rattle.refusal.specs.Refusal.{refusal_number};
ghost use Rattle.segment.specs.Segments.{segment_from, segments_of};
ghost use Rattle.refusal.specs.Guarded.{wrapping, fault, fault_of, first_wrapping};

// The refusals by their numbers.
#[derive(Clone, Copy)]
pub enum Refusal {
    // A count of segment numbers that is not a multiple of four.
    RaggedSegments = 1,
    // A bundle that breaks a rule of its format.
    BrokenBundle = 2,
    // A joined name that is longer than the caller's buffer.
    LongName = 3,
    // The joined name of a type around which a 257th context can be read.
    DeepContexts = 4,
    // A bundle of more than 65,536 bytes.
    LongBundle = 5,
    // A segment with vmaddr + vmsize of 2^64 or more.
    WrappingSegment = 9,
}

pub fn number(refusal: Refusal) -> u64
    ensures { result ≡ refusal_number refusal }
{
    refusal as u64
}

impl From<Refusal> for u64 {
    ghost from_gives = { λ refusal n. n ≡ refusal_number refusal };

    fn from(refusal: Refusal) -> u64 {
        number(refusal)
    }
}

// Whether the segment with these numbers ends past the last address.
fn wraps(numbers: &[u64; 4]) -> bool
    ensures { result ≡ wrapping (segment_from numbers.now) }
{
    let [vmaddr, vmsize, _, _] = *numbers;
    u64::MAX - vmaddr < vmsize
}

// How many segments wrap. They are counted, so that no segment takes a branch; `filter` and `count` take one, and twice the time.
fn count_wrapping(segments: &[[u64; 4]]) -> usize
    ensures { result ≡ count_by (λ c. wrapping (segment_from c)) segments.now }
{
    let mut count = 0;
    for numbers in segments {
        if wraps(numbers) {
            count += 1;
        }
    }
    count
}

// Tests the segments that a call was given: `Err` is what the call answers.
pub fn find_fault(segments: &[u64]) -> Result<(), Refusal>
    ensures { fault_of result ≡ fault segments.now }
{
    let (segments, rest) = segments.as_chunks();
    if !rest.is_empty() {
        return Err(Refusal::RaggedSegments);
    }
    if count_wrapping(segments) != 0 {
        return Err(Refusal::WrappingSegment);
    }
    Ok(())
}

// Which of them wraps first.
fn first_wrapping(segments: &[[u64; 4]]) -> Option<usize>
    ensures { result ≡ position_from (λ c. wrapping (segment_from c)) 0 segments.now }
{
    segments.iter().position(wraps)
}

// The first segment of a list that wraps, by its number from 0 on, for a message.
pub fn wrapping_segment(segments: &[u64]) -> Option<usize>
    ensures { result ≡ first_wrapping 0 (segments_of segments.now) }
{
    first_wrapping(segments.as_chunks().0)
}
