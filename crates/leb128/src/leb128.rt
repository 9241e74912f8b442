// Numbers of seven bits to a byte, the lowest first, whose high bit says that another byte follows.
ghost use Rattle.std.specs.Prelude.{◌≡◌};
ghost use Rattle.leb128.specs.Leb128.{uleb128, sleb128, read_value, sign_bits};
ghost use Rattle.leb128.specs.Leb128Walk.{Running, Chunked};

// The number and how many bytes it has.
#[derive(Clone, Copy)]
pub struct Leb128<T> {
    pub value: T,
    pub consumed: usize,
}

pub type Uleb128 = Leb128<u64>;

pub type Sleb128 = Leb128<i64>;

// What the bytes of a number hold, up to eleven of them: the low 64 bits, the weight of the bit after the last (0 if it is past them),
// the last byte, and how many bytes there are.
#[derive(Clone, Copy)]
pub struct Chunks {
    bits: u64,
    weight: u64,
    last: u64,
    count: usize,
}

// After nine continuation bytes: the tenth has the last bit of the 64, and the eleventh none.
fn tenth(bytes: &[u8], bits: u64) -> Option<Chunks>
    requires { Running bytes.now 9 bits }
    ensures { Chunked bytes.now result }
{
    if bytes.len() <= 9 {
        return None;
    }
    let b = bytes[9] as u64;
    let word = bits + 0x8000_0000_0000_0000 * (b % 2);
    if b < 128 {
        return Some(Chunks {
            bits: word,
            weight: 0,
            last: b,
            count: 10,
        });
    }
    if bytes.len() <= 10 {
        return None;
    }
    let c = bytes[10] as u64;
    if c < 128 {
        return Some(Chunks {
            bits: word,
            weight: 0,
            last: c,
            count: 11,
        });
    }
    None
}

fn read_chunks(bytes: &[u8]) -> Option<Chunks>
    ensures { Chunked bytes.now result }
{
    let mut bits: u64 = 0;
    let mut weight: u64 = 1;
    for i in 0..9 {
        if bytes.len() <= i {
            return None;
        }
        let b = bytes[i] as u64;
        if b < 128 {
            return Some(Chunks {
                bits: bits + weight * b,
                weight: weight * 128,
                last: b,
                count: i + 1,
            });
        }
        bits += weight * (b - 128);
        weight *= 128;
    }
    tenth(bytes, bits)
}

// The unsigned number at the start of the bytes. Bits past the 64th are dropped, as in the Rust, but an eleventh byte must be 0.
pub fn read_uleb128(bytes: &[u8]) -> Option<Uleb128>
    ensures { read_value result ≡ uleb128 bytes.now }
{
    let Chunks {
        bits,
        last,
        count,
        ..
    } = read_chunks(bytes)?;
    if count == 11 && last != 0 {
        return None;
    }
    Some(Leb128 {
        value: bits,
        consumed: count,
    })
}

// What a byte past the 64 bits must be.
fn sign_bits(n: u64) -> u64
    ensures { result ≡ sign_bits n }
{
    if n < 0x8000_0000_0000_0000 { 0 } else { 127 }
}

// The signed number at the start of the bytes. Up to nine bytes are filled up with their sign; with more, the bits past the 64th are
// dropped, but an eleventh byte must repeat the sign.
pub fn read_sleb128(bytes: &[u8]) -> Option<Sleb128>
    ensures { read_value result ≡ sleb128 bytes.now }
{
    let Chunks {
        bits,
        weight,
        last,
        count,
    } = read_chunks(bytes)?;
    if count == 11 && last != sign_bits(bits) {
        return None;
    }
    let filled = if count < 10 && 64 <= last {
        bits + (u64::MAX - weight + 1)
    } else {
        bits
    };
    Some(Leb128 {
        value: filled.cast_signed(),
        consumed: count,
    })
}
