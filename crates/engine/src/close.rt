//! Close: what it asks; then the price is fixed, the quotes are ranked, and what better quotes are owed is ticketed.
ghost use Rattle.std.specs.Prelude.{◌≡◌, ◌≤◌, true, length, Ok};
ghost use Rattle.market.specs.Fits.{quotes_fit};
ghost use Rattle.pricing.specs.Books.{Sound};
ghost use Rattle.pricing.specs.Outcomes.{IsOutcome};
ghost use Rattle.engine.specs.States.{table_rows, SameTables, IsSized};
ghost use Rattle.engine.specs.Limits.{order_rows, day_end};
ghost use Rattle.engine.specs.Stages.{closes_at};
ghost use Rattle.engine.specs.Questions.{close_questions};
ghost use Rattle.std.specs.Result.{result_err};
ghost use Rattle.market.specs.Questions.{first_no};
ghost use Rattle.engine.specs.Effects.{granted, at_stage, quotes_used, book_in, unpriced, close};
ghost use Rattle.engine.specs.Books.{book_from, listed_market};
ghost use Rattle.engine.specs.Steps.{Closed};

use crate::answer::Answer;
use crate::book::TableBook;
use crate::limits::TICKET_TIME;
use crate::listed::Listed;
use crate::quotes::read_quotes;
use crate::stage::Stage;
use crate::state::Engine;
use crate::tables::Tables;
use market::{HIGHEST_PRICE, QuoteSource, Refusal, Side, quotes_fit};
use orders::OrderRow;
use pricing::{Cause, close_price};
use ranking::first_rows;

// When a close comes: at a time of the day.
#[derive(Clone, Copy)]
struct CloseTime {
    millis: u32,
    ghost of_day: { millis ≤ day_end },
}

// The SNAP Price of some rows and quotes, with its count, or the cause why there is none.
fn price_of<'x>(
    buys: &'x [OrderRow],
    sells: &'x [OrderRow],
    quotes: &Listed<'x>,
    last_sale: u32,
) -> Result<(u32, u64), Cause>
    requires buys { length buys.now ≤ order_rows }
    requires sells { length sells.now ≤ order_rows }
    ensures { Sound (book_from buys.now sells.now quotes.now.bids.now quotes.now.offers.now)
        → IsOutcome quotes.now.halted
        (book_from buys.now sells.now quotes.now.bids.now quotes.now.offers.now) last_sale result }
{
    let book = TableBook {
        buys,
        sells,
        quotes: *quotes,
    };
    close_price(&book, quotes.halted, last_sale)
}

impl Engine {
    // Whether a close may come. `closes` is the closing time that the stage holds.
    pub(crate) fn may_close<S: QuoteSource>(
        &self,
        closes: u32,
        source: &S,
        time: u32,
        last_sale: u32,
    ) -> Result<(), Refusal>
        requires { closes_at self.now.stage ≡ closes }
        ensures { let m = S.meaning source.now in
            result_err result ≡ first_no (close_questions self.now m time last_sale) }
    {
        self.may_come(time)?;
        if time < closes {
            return Err(Refusal::CloseEarly);
        }
        if !quotes_fit(source) {
            return Err(Refusal::Quotes);
        }
        if last_sale > HIGHEST_PRICE {
            return Err(Refusal::LastSale);
        }
        Ok(())
    }

    // The SNAP Price of the rows in use and the quotes, with its count, or the cause why there is none.
    fn fix_price(
        &self,
        quotes: &Listed<'_>,
        last_sale: u32,
        tables: &Tables<'_>,
    ) -> Result<(u32, u64), Cause>
        requires sized { IsSized (table_rows tables.now) }
        ensures { let h = table_rows tables.now in
            let q = listed_market quotes.now in
            Sound (book_in self.now q h) → IsOutcome quotes.now.halted (book_in self.now q h)
            last_sale result }
    {
        let buys = first_rows(&*tables.buys, self.used.buys);
        let sells = first_rows(&*tables.sells, self.used.sells);
        price_of(buys, sells, quotes, last_sale)
    }

    // Notes a close: its time, the stage that it leads to, and how many quotes and tickets there are.
    fn note_close(&mut self, time: u32, stage: Stage, quotes: &Listed<'_>, tickets: usize)
        ensures { let q = listed_market quotes.now in
            self.new ≡ at_stage stage time (quotes_used q tickets self.old.used) self.old }
    {
        self.stage = stage;
        self.last_time = Some(time);
        self.used.bids = quotes.bids.len();
        self.used.offers = quotes.offers.len();
        self.used.tickets = tickets;
    }

    // A close that fixed a price. Time, quotes and tables go on together to here, each to another part of what a close does.
    fn close_priced(
        &mut self,
        time: CloseTime,
        snap: (u32, u64),
        quotes: &Listed<'_>,
        tables: &mut Tables<'_>,
    ) -> Answer
        requires sized { IsSized (table_rows tables.old) }
        ensures step { let h = table_rows tables.old in
            let q = listed_market quotes.now in
            granted self.new (table_rows tables.new) result
            ≡ close self.old q h time.millis (Ok snap) }
        ensures names { SameTables tables.old tables.new }
    {
        let (price, count) = snap;
        let tickets = self.route(price, quotes, tables);
        let stage = Stage::Satisfaction {
            price,
            deadline: time.millis + TICKET_TIME,
        };
        self.note_close(time.millis, stage, quotes, tickets);
        Answer::Priced {
            price,
            count,
            tickets,
        }
    }

    // A close that fixed none, on a market that is not halted.
    fn close_unpriced(
        &mut self,
        time: CloseTime,
        cause: Cause,
        quotes: &Listed<'_>,
        tables: &mut Tables<'_>,
    ) -> Answer
        requires sized { IsSized (table_rows tables.old) }
        ensures step { let h = table_rows tables.old in
            let q = listed_market quotes.now in
            granted self.new (table_rows tables.new) result
            ≡ unpriced self.old q h time.millis cause }
        ensures names { SameTables tables.old tables.new }
    {
        tables.rank_both(quotes);
        self.note_close(time.millis, Stage::Matched, quotes, 0);
        Answer::Unpriced { cause }
    }

    // What a close does by the outcome of its pricing.
    fn close_by(
        &mut self,
        time: CloseTime,
        outcome: Result<(u32, u64), Cause>,
        quotes: &Listed<'_>,
        tables: &mut Tables<'_>,
    ) -> Answer
        requires sized { IsSized (table_rows tables.old) }
        ensures step { let h = table_rows tables.old in
            let q = listed_market quotes.now in
            granted self.new (table_rows tables.new) result
            ≡ close self.old q h time.millis outcome }
        ensures names { SameTables tables.old tables.new }
    {
        match outcome {
            Ok(snap) => self.close_priced(time, snap, quotes, tables),
            Err(Cause::Halted) => {
                tables.cancel_rests();
                self.end_cycle(time.millis);
                Answer::Unpriced {
                    cause: Cause::Halted,
                }
            }
            Err(cause) => self.close_unpriced(time, cause, quotes, tables),
        }
    }

    // A granted close on the quotes of its source.
    fn close_on(
        &mut self,
        time: CloseTime,
        last_sale: u32,
        quotes: &Listed<'_>,
        tables: &mut Tables<'_>,
    ) -> Answer
        requires sized { IsSized (table_rows tables.old) }
        ensures closed { let h = table_rows tables.old in
            let q = listed_market quotes.now in
            Closed self.old q h time.millis last_sale
            (granted self.new (table_rows tables.new) result) }
        ensures names { SameTables tables.old tables.new }
    {
        let outcome = self.fix_price(quotes, last_sale, tables);
        self.close_by(time, outcome, quotes, tables)
    }

    // A granted close: the quotes are read from the source, each of them once.
    pub(crate) fn close<S: QuoteSource>(
        &mut self,
        time: u32,
        last_sale: u32,
        source: &S,
        tables: &mut Tables<'_>,
    ) -> Answer
        requires sized { IsSized (table_rows tables.old) }
        requires time { time ≤ day_end }
        requires fit { quotes_fit (S.meaning source.now) ≡ true }
        ensures closed { let m = S.meaning source.now in
            let h = table_rows tables.old in
            Closed self.old m h time last_sale (granted self.new (table_rows tables.new) result) }
        ensures names { SameTables tables.old tables.new }
    {
        let bids = read_quotes(source, Side::Buy);
        let offers = read_quotes(source, Side::Sell);
        let quotes = Listed {
            bids: bids.as_slice(),
            offers: offers.as_slice(),
            halted: source.halted(),
        };
        self.close_on(CloseTime { millis: time }, last_sale, &quotes, tables)
    }
}
