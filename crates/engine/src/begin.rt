//! Begin: what it asks, and how a cycle starts.
ghost use Rattle.engine.specs.Effects.{granted, begin};
ghost use Rattle.engine.specs.Questions.{time_fits, acceptance_fits, two_sided, reaches, start_time_fits, begin_questions};
ghost use Rattle.engine.specs.States.{table_rows, SameTables, IsSized};
ghost use Rattle.market.specs.Questions.{first_no};
ghost use Rattle.market.specs.Sides.{side_numbered};
ghost use Rattle.orders.specs.Orders.{well_formed};
ghost use Rattle.std.specs.Prelude.{◌≡◌, ◌+◌, Some, nat_le, ◌<◌, true};
ghost use Rattle.std.specs.Result.{result_err};

use crate::answer::Answer;
use crate::call::Facts;
use crate::limits::{
    CYCLE_GAP, FIRST_START, LAST_START, LONGEST_ACCEPTANCE, QUOTE_AGE, SHORTEST_ACCEPTANCE,
};
use crate::minimum::minimum_size;
use crate::stage::Stage;
use crate::state::{Engine, Used};
use crate::tables::Tables;
use market::{QuoteSource, Refusal, Side, best_price, quotes_fit};
use orders::Order;
use pricing::is_crossed;

// A bid and an offer, and no bid above an offer.
fn is_two_sided<S: QuoteSource>(source: &S) -> bool
    ensures { result ≡ two_sided (S.meaning source.now) }
{
    best_price(source, Side::Buy)
        .zip(best_price(source, Side::Sell))
        .is_some_and(|(bid, offer)| !is_crossed(Some(bid), Some(offer)))
}

// A buy reaches the best offer, a sell the best bid.
fn reaches_quote<S: QuoteSource>(side: Side, order: Order, source: &S) -> bool
    requires { side_numbered order.side ≡ Some side }
    ensures { result ≡ reaches order (S.meaning source.now) }
{
    match side {
        Side::Buy => best_price(source, Side::Sell).is_some_and(|offer| offer <= order.price),
        Side::Sell => best_price(source, Side::Buy).is_some_and(|bid| order.price <= bid),
    }
}

// Whether what came at `then` came at least `age` before `time`.
fn is_long_ago(age: u32, then: u32, time: u32) -> bool
    ensures { result ≡ nat_le (then + age) time }
{
    u64::from(then) + u64::from(age) <= u64::from(time)
}

impl Engine {
    fn start_time_fits(&self, time: u32, facts: Facts) -> bool
        ensures { result ≡ start_time_fits self.now time facts }
    {
        (FIRST_START..=LAST_START).contains(&time)
            && facts
                .first_quote
                .is_some_and(|then| is_long_ago(QUOTE_AGE, then, time))
            && self
                .last_end
                .is_none_or(|then| is_long_ago(CYCLE_GAP, then, time))
    }
}

fn acceptance_fits(facts: Facts) -> bool
    ensures { result ≡ acceptance_fits facts }
{
    (SHORTEST_ACCEPTANCE..=LONGEST_ACCEPTANCE).contains(&facts.acceptance)
}

impl Engine {
    // Whether a begin may come. Its time, order and facts are what the call brings; they go on together here and to `begin` only.
    pub(crate) fn may_begin<S: QuoteSource>(
        &self,
        source: &S,
        time: u32,
        order: Order,
        facts: Facts,
    ) -> Result<(), Refusal>
        ensures { let m = S.meaning source.now in
            result_err result ≡ first_no (begin_questions self.now m time order facts) }
    {
        self.may_come(time)?;
        if !quotes_fit(source) {
            return Err(Refusal::Quotes);
        }
        if source.halted() {
            return Err(Refusal::TradingHalted);
        }
        if !is_two_sided(source) {
            return Err(Refusal::NoMarket);
        }
        let (side, _) = order.well_formed().ok_or(Refusal::OrderForm)?;
        if facts.short_sale {
            return Err(Refusal::ShortSale);
        }
        if order.shares < minimum_size(self.issue, order.price) {
            return Err(Refusal::StartSize);
        }
        if !reaches_quote(side, order, source) {
            return Err(Refusal::StartReach);
        }
        if !self.start_time_fits(time, facts) {
            return Err(Refusal::StartTime);
        }
        if !facts.routing {
            return Err(Refusal::NoRouting);
        }
        if !acceptance_fits(facts) {
            return Err(Refusal::AcceptanceLength);
        }
        Ok(())
    }

    // Empties the tables and opens acceptance with the start order.
    pub(crate) fn begin(
        &mut self,
        time: u32,
        order: Order,
        facts: Facts,
        tables: &mut Tables<'_>,
    ) -> Answer
        requires sized { IsSized (table_rows tables.old) }
        requires time { time_fits self.old time ≡ true }
        requires formed { well_formed order ≡ true }
        requires acceptance { acceptance_fits facts ≡ true }
        ensures step { let h = table_rows tables.old in
            granted self.new (table_rows tables.new) result ≡ begin self.old h time order facts }
        ensures names { SameTables tables.old tables.new }
    {
        tables.clear();
        self.used = Used::default();
        self.stage = Stage::Acceptance {
            closes: time + facts.acceptance,
        };
        self.last_time = Some(time);
        self.fixed = None;
        self.seat_order(order, tables);
        Answer::Done
    }
}
