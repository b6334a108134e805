//! Image pricing. The static library image_c hands it to C and to any language that calls C.
ghost use Rattle.std.specs.Prelude.{◌≡◌, ◌≤◌, IfOk};
ghost use Rattle.market.specs.Refusals.{answer_number};
ghost use Rattle.image.specs.Answers.{ImagePricing, PricedAs};
ghost use Rattle.image.specs.Images.{image_book};
ghost use Rattle.image.specs.Numbers.{image_number, export_number, pricing_numbers, OutcomeSays, PricedNumbers, BytesSay};

use crate::answer::put_outcome;
use crate::image::BookImage;
use crate::limits::ANSWER;
use market::{HIGHEST_PRICE, Refusal, quotes_fit};
use pricing::{Cause, close_price};

/// The outcome of a close on the book in an image, by the last eligible sale in points, 0 if there was none: the SNAP Price in points
/// with its count in shares, or the cause why there is none (docs/RULES.md, "Pricing a book image").
///
/// It refuses bytes that have not the layout of an image (25), an order whose price or shares do not fit (26), quotes that do not
/// fit (4), and a last sale above the highest price (19): the first of them.
pub fn price_image(image: &[u8], last_sale: u32) -> Result<Result<(u32, u64), Cause>, Refusal>
    ensures priced { PricedAs image.now last_sale result }
    ensures number { answer_number result ≡ image_number image.now last_sale }
    ensures says { IfOk result (OutcomeSays (image_book image.now) last_sale) }
    ensures numbers { PricedNumbers image.now last_sale (pricing_numbers result) }
{
    let book = BookImage::read(image)?;
    if !book.orders_fit() {
        return Err(Refusal::ImageOrder);
    }
    if !quotes_fit(&book) {
        return Err(Refusal::Quotes);
    }
    if last_sale > HIGHEST_PRICE {
        return Err(Refusal::LastSale);
    }
    Ok(close_price(&book, false, last_sale))
}

/// Prices the book in an image, by the last eligible sale in points, 0 if there was none. Returns 0 and writes price, cause and count
/// to the bytes of the output; or returns the number of a refusal and leaves the output as it stood: 24 where the output has not the
/// length of an answer, and else those of `price_image`.
///
/// The C interface has numbers alone: 0 here and the cause 0 in the bytes say that there is a price.
#[unsafe(no_mangle)]
pub extern "C" fn snap_price_image(image: &[u8], last_sale: u32, out: &mut [u8]) -> u32
    ensures pricing { ImagePricing image.now last_sale out.old result out.new }
    ensures number { result ≡ export_number image.now last_sale out.old }
    ensures says { result ≡ 0 → BytesSay (image_book image.now) last_sale out.new }
    ensures kept { 1 ≤ result → out.new ≡ out.old }
{
    if out.len() != ANSWER {
        return u32::from(Refusal::OutputLength);
    }
    match price_image(image, last_sale) {
        Ok(outcome) => {
            put_outcome(out, outcome);
            0
        }
        Err(refusal) => u32::from(refusal),
    }
}
