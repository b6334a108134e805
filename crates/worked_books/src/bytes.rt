//! The bytes of a worked book, and of an answer.
ghost use Rattle.std.specs.Prelude.{◌≡◌, ◌+◌, ◌++◌, ◌≤◌, take, drop, is_ok, IfOk, if◌then◌else◌};
ghost use Rattle.image.specs.Words.{little_endian};
ghost use Rattle.worked_books.specs.Bytes.{image_of, answer_in};

use crate::books::Worked;
use pricing::Level;
use std::alloc::{AllocError, Global};

// One word more, little-endian.
fn push_word(bytes: &mut Vec<u8>, word: u32) -> Result<(), AllocError>
    ensures { bytes.new.items ≡ (if is_ok result then bytes.old.items ++ little_endian 4 word else bytes.old.items) }
{
    bytes.extend_from_slice(&word.to_le_bytes())
}

/// The image of a worked book: four sizes, then the prices, then the shares.
pub fn image_of(heap: Global, worked: Worked) -> Result<Vec<u8>, AllocError>
    ensures { IfOk result (λ v. v.items ≡ image_of worked) }
{
    let lists = [worked.buy, worked.sell, worked.bid, worked.offer];
    let mut bytes = Vec::new(heap);
    for list in lists.iter() {
        push_word(&mut bytes, u32::from(list.is_some()))?;
    }
    // No `flatten`: a loop over one needs an invariant on the state within it.
    for list in lists.iter() {
        if let Some(Level { price, .. }) = list {
            push_word(&mut bytes, *price)?;
        }
    }
    for list in lists.iter() {
        if let Some(Level { shares, .. }) = list {
            push_word(&mut bytes, *shares)?;
        }
    }
    Ok(bytes)
}

/// An answer as the exported function writes it for C: the cause 0 says that there is a price.
#[derive(Clone, Copy)]
pub struct Priced {
    /// The price, in points; 0 where there is none.
    pub price: u32,
    /// The number of the cause why there is no price, 0 where there is one.
    pub cause: u32,
    /// How many shares find both a buyer and a seller at the price.
    pub count: u64,
}

// The bytes of an answer from a place on: they are there, so they are copied, and no conversion can fail.
fn part<const N: usize>(out: &[u8; 16], from: usize) -> [u8; N]
    requires { from + N ≤ 16 }
    ensures { result ≡ take N (drop from out.now) }
{
    let mut bytes = [0; N];
    bytes.copy_from_slice(&out[from..from + N]);
    bytes
}

impl From<&[u8; 16]> for Priced {
    ghost from_gives = { λ out priced. priced ≡ answer_in out.now };

    fn from(out: &[u8; 16]) -> Priced {
        Priced {
            price: u32::from_le_bytes(part(out, 0)),
            cause: u32::from_le_bytes(part(out, 4)),
            count: u64::from_le_bytes(part(out, 8)),
        }
    }
}
