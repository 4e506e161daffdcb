// What is read off the memory of a frame: how many checks are unmet, and the digits packed into
// bytes.
ghost use Rattle.std.specs.Prelude.{◌≡◌, ◌+◌, ◌*◌, ◌&&◌, length, nat_lt};
ghost use Rattle.plain.specs.Machine.{byte_below};
ghost use Rattle.engine.specs.Packing.{unmet_signs, digits_of, packed_into};

use crate::bit::digit_at;
use crate::{Bit, Sign};

// How many signs are unmet.
// Kept: counted in a loop: by `filter` and `count` each sign costs a jump.
pub fn unmet(signs: &[Sign]) -> usize
    ensures { result ≡ unmet_signs signs.now }
{
    let mut count = 0;
    for sign in signs {
        count += usize::from(*sign == Sign::Unmet);
    }
    count
}

// Whether place j of byte i is a record with the digit 1.
fn is_one(records: &[Bit], i: usize, j: usize) -> bool
    ensures { result ≡ (nat_lt (i * 8 + j) (length records.now) && digits_of records.now (i * 8 + j)) }
{
    digit_at(records, i.saturating_mul(8).saturating_add(j))
}

// Byte i of the packed digits.
// Kept: a sum over the eight places; as a chain, that the sum fits a byte could not be proved.
fn byte_at(records: &[Bit], i: usize) -> u8
    ensures { result ≡ byte_below (length records.now) (digits_of records.now) i 8 }
{
    let mut byte = 0;
    for j in 0..8 {
        if is_one(records, i, j) {
            byte += 0x80 >> j;
        }
    }
    byte
}

// Packs the digits into bytes, the first at the top of the first byte; what is left of the output
// is 0.
pub fn pack(records: &[Bit], output: &mut [u8])
    ensures { output.new ≡ packed_into (length output.old) records.now }
{
    for (i, byte) in output.iter_mut().enumerate() {
        *byte = byte_at(records, i);
    }
}
