//! The answer of image pricing in bytes: price (0 to 3), cause (4 to 7) and count (8 to 15), little-endian (docs/FORMATS.md).
ghost use Rattle.std.specs.Prelude.{◌≡◌, length};
ghost use Rattle.pricing.specs.Outcomes.{outcome_number, outcome_price, outcome_count};
ghost use Rattle.image.specs.Answers.{outcome_bytes, answer_bytes};
ghost use Rattle.image.specs.Limits.{answer_length};
ghost use Rattle.image.specs.Numbers.{Reads};

use pricing::Cause;

// Price, cause and count, side by side: for C, so the cause is a number.
fn put_numbers(out: &mut [u8], price: u32, cause: u32, count: u64)
    requires { length out.old ≡ answer_length }
    ensures bytes { out.new ≡ answer_bytes price cause count }
    ensures read { Reads out.new price cause count }
{
    out[0..4].copy_from_slice(&price.to_le_bytes());
    out[4..8].copy_from_slice(&cause.to_le_bytes());
    out[8..16].copy_from_slice(&count.to_le_bytes());
}

// An outcome; price and count are 0 where there is no price.
pub(crate) fn put_outcome(out: &mut [u8], outcome: Result<(u32, u64), Cause>)
    requires { length out.old ≡ answer_length }
    ensures bytes { out.new ≡ outcome_bytes outcome }
    ensures read { Reads out.new (outcome_price outcome)
        (outcome_number outcome) (outcome_count outcome) }
{
    match outcome {
        Ok((price, count)) => put_numbers(out, price, 0, count),
        Err(cause) => put_numbers(out, 0, u32::from(cause), 0),
    }
}
