//! Image pricing as a static library, for programs in C, Rust or any language that calls C.

#![tactic(auto)]

ghost use Rattle.std.specs.Prelude.{◌≡◌, ◌≤◌};
ghost use Rattle.image.specs.Answers.{ImagePricing};
ghost use Rattle.image.specs.Images.{image_book};
ghost use Rattle.image.specs.Numbers.{export_number, BytesSay};

/// Prices the book in an image, by the last eligible sale in points, 0 if there was none. Returns 0 and writes price, cause and count
/// to the bytes of the output; or returns the number of a refusal and leaves the output as it stood (docs/RULES.md, "Pricing a book
/// image").
#[unsafe(no_mangle)]
pub extern "C" fn snap_price_image(image: &[u8], last_sale: u32, out: &mut [u8]) -> u32
    ensures pricing { ImagePricing image.now last_sale out.old result out.new }
    ensures number { result ≡ export_number image.now last_sale out.old }
    ensures says { result ≡ 0 → BytesSay (image_book image.now) last_sale out.new }
    ensures kept { 1 ≤ result → out.new ≡ out.old }
{
    image::snap_price_image(image, last_sale, out)
}
