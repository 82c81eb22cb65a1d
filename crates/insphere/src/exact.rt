// E in two words of 64 bits.

ghost use Rattle.std.specs.Prelude.{◌≤◌, ◌^◌, ◌≡◌, pos, nat_abs};
ghost use Rattle.std.specs.Int.Signed.{lt_z};
ghost use Rattle.insphere.specs.Inner.{TermInRange, TermsInRange, exact_sum, parted, term_words, WordsInRange, sum_words};

use crate::{Term, Terms, Words};

// What one of a high word is worth.
const UNIT: u64 = 1 << 27;

// A volume is not below -OFFSET, which is OFFSET_UNITS units.
const OFFSET: i64 = 1 << 52;

const OFFSET_UNITS: i64 = 1 << 25;

// A volume in words.
fn part(v: i64) -> Words
    requires { nat_abs v ≤ 2 ^ 52 }
    ensures { result ≡ parted v }
{
    let u = (v + OFFSET) as u64;
    Words {
        high: (u / UNIT) as i64 - OFFSET_UNITS,
        low: u % UNIT,
    }
}

// A term in words: the low product's units go up.
fn multiply(x: Term) -> Words
    requires { TermInRange x }
    ensures { result ≡ term_words x }
{
    let w = part(x.volume);
    let low = w.low * (x.distance as u64);
    Words {
        high: w.high * x.distance + (low / UNIT) as i64,
        low: low % UNIT,
    }
}

// The sum of four, its low word's units gone up.
fn add(a: Words, b: Words, c: Words, d: Words) -> Words
    requires { WordsInRange a × WordsInRange b × WordsInRange c × WordsInRange d }
    ensures { result ≡ sum_words a b c d }
{
    let low = a.low + b.low + c.low + d.low;
    Words {
        high: a.high + b.high + c.high + d.high + (low / UNIT) as i64,
        low: low % UNIT,
    }
}

// Whether the sum of the terms is above 0.
pub fn is_sum_positive(x: Terms) -> bool
    requires { TermsInRange x }
    ensures { result ≡ lt_z (pos 0) (exact_sum x) }
{
    let sum = add(
        multiply(x.t0),
        multiply(x.t1),
        multiply(x.t2),
        multiply(x.t3),
    );
    if sum.high == 0 {
        sum.low > 0
    } else {
        sum.high > 0
    }
}
