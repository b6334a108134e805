//! The minimum sizes of a start order, at the price where each begins and at the last price before it; the first at 4.
use crate::edge::{edge, head};
use crate::scenes::{begin, open, order, quoted};
use desk::Desk;
use engine::Issue;
use market::{Refusal, Side};
use report::Grouped;

// A price, in points, and the minimum size that a start order has there.
#[derive(Clone, Copy)]
struct Size {
    price: u32,
    shares: u32,
}

fn from(price: u32, shares: u32) -> Size {
    Size { price, shares }
}

// The prices from which a minimum size holds, and the last price before each.
fn sizes() -> [Size; 13] {
    [
        from(4, 100_000),
        from(19_998, 100_000),
        from(20_000, 50_000),
        from(99_800, 50_000),
        from(100_000, 25_000),
        from(499_800, 25_000),
        from(500_000, 20_000),
        from(999_800, 20_000),
        from(1_000_000, 10_000),
        from(1_999_800, 10_000),
        from(2_000_000, 5_000),
        from(9_999_800, 5_000),
        from(10_000_000, 2_500),
    ]
}

// A buy of just the minimum size, and of a share less.
fn play_size(rt: &HostRuntime, desk: &Desk, size: Size) -> anyhow::Result<()> {
    let Size { price, shares } = size;
    let points = Grouped(u64::from(price));
    let minimum = Grouped(u64::from(shares));
    println!(rt; "  at {points} points, {minimum}")?;
    let exact = order(1, Side::Buy, price, shares);
    let short = order(1, Side::Buy, price, shares.saturating_sub(1));
    edge(rt, desk, "  just that many", &begin(exact))?;
    edge(rt, desk, "  a share less", &begin(short))
}

/// Plays the minimum sizes.
pub fn play(rt: &HostRuntime) -> anyhow::Result<()> {
    head(rt, Refusal::StartSize)?;
    // The lowest prices there are, so that a buy at any price from 4 up reaches the offer.
    let desk = quoted(Issue::Ordinary, 2, 4)?;
    for size in sizes() {
        play_size(rt, &desk, size)?;
    }
    println!(rt; "  in a special issue")?;
    play_size(rt, &open()?, from(200_400, 100))
}
