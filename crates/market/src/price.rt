//! Prices are whole points, 20,000 to the dollar.
ghost use Rattle.std.specs.Prelude.{◌≡◌};
ghost use Rattle.market.specs.Prices.{permitted, fits};

use crate::limits::{CENT, DOLLAR, FINE_STEP, HIGHEST_PRICE, LOWEST_PRICE, MOST_SHARES};

/// Whether orders and quotes may stand at a price, in points (docs/RULES.md, "Prices and shares"). Written without branches: it runs over whole images.
pub fn price_permitted(price: u32) -> bool
    ensures { result ≡ permitted price }
{
    let fine = (price >= LOWEST_PRICE) & (price < DOLLAR) & (price % FINE_STEP == 0);
    let coarse = (price >= DOLLAR) & (price <= HIGHEST_PRICE) & (price % CENT == 0);
    fine | coarse
}

/// Whether an order or quote may have this price, in points, and these shares.
pub fn entry_fits(price: u32, shares: u32) -> bool
    ensures { result ≡ fits price shares }
{
    price_permitted(price) & (shares >= 1) & (shares <= MOST_SHARES)
}
