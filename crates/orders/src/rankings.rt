//! How orders rank on a side: by better price, then by lower class, then by lower number. The price of a row is that of its
//! level. docs/RULES.md, "Rank order".
ghost use Rattle.orders.specs.Rankings.{row_ahead};
ghost use Rattle.orders.specs.RankingLaws.{row_apart, row_through, row_level};

use crate::row::OrderRow;
use market::{ByPrice, PriceOrder};
use pricing::AsLevel;
use ranking::Ranking;

impl<P: PriceOrder> Ranking<OrderRow> for ByPrice<P> {
    ghost ahead = { row_ahead P.better };

    ghost apart = { row_apart P.better P.laws };

    ghost through = { row_through P.better P.laws };

    ghost level = { row_level P.better P.laws };

    fn is_ahead(a: &OrderRow, b: &OrderRow) -> bool {
        let (price, other) = (a.level().price, b.level().price);
        if price == other {
            (a.class, a.number) < (b.class, b.number)
        } else {
            P::is_better(price, other)
        }
    }
}
