//! The market of one security: prices, sides, outside quotes and their sources, a table of venues, and the refusals.

#![tactic(auto)]

mod best;
mod fit;
mod laws;
mod limits;
mod price;
mod quote;
mod quotes;
mod rankings;
mod refusal;
mod side;
mod source;
mod terms;
mod venues;

pub use best::best_price;
pub use fit::quotes_fit;
pub use laws::market_laws;
pub use limits::{
    CENT, DOLLAR, FINE_STEP, HIGHEST_PRICE, LOWEST_PRICE, MOST_ORDERS, MOST_QUOTES, MOST_SHARES,
    VENUES,
};
pub use price::{entry_fits, price_permitted};
pub use quote::Quote;
pub use quotes::Quotes;
pub use rankings::{ByPrice, Higher, HigherFirst, Lower, LowerFirst, PriceOrder};
pub use refusal::Refusal;
pub use side::{Side, UnknownSide};
pub use source::QuoteSource;
pub use venues::VenueTable;
