//! What holds of every image. Contracts stand on functions: what this answers says nothing.
ghost use Rattle.image.specs.Limits.{ImageLengths};

/// The lengths of an image and of an answer (RULES, "Pricing a book image").
pub fn image_laws() -> u8
    ensures lengths { ImageLengths }
{
    0
}
