//! What is asked for on the command line.
ghost use Rattle.std.specs.Str.Parse.{ParsesUnsigned};

use anyhow::anyhow;
use std::env;

// The image and the last sale that the program is shipped with.
const SAMPLE: &str = "sample.book";

const SAMPLE_SALE: u32 = 200_290;

/// What is to be priced.
#[derive(Drop)]
pub struct Request {
    /// The file with the image.
    pub path: String,
    /// The last eligible sale, in points; none where there was none.
    pub last_sale: Option<u32>,
}

// A last sale from its decimal digits.
fn parse_sale(text: &str) -> anyhow::Result<u32>
    ensures { ParsesUnsigned 32 10 text.now result }
{
    text.parse::<u32>().map_err(|e| anyhow!(
        "the last sale '{text}' is not a number of points: {e}"
    ))
}

impl Request {
    /// The words after the program's name: an image and a last sale, each of which may be left out. A last sale of 0
    /// is none.
    pub fn from_arguments(rt: &HostRuntime) -> anyhow::Result<Request> {
        let mut words = env::args(rt)?.skip(1);
        let Some(path) = words.next() else {
            return Ok(Request {
                path: String::from_str(rt.alloc(), SAMPLE)?,
                last_sale: Some(SAMPLE_SALE),
            });
        };
        let last_sale = words
            .next()
            .map(|word| parse_sale(word.as_str()))
            .transpose()?
            .filter(|sale| *sale != 0);
        if words.next().is_some() {
            return Err(anyhow!("usage: price_image [IMAGE [LAST-SALE]]"));
        }
        Ok(Request { path, last_sale })
    }
}
