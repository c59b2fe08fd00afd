//! Limits and prices of bends by strip. Against counts: does each strip keep its limit, and what do the bends cost?
ghost use Rattle.std.specs.List.{list_all};
ghost use Rattle.std.specs.Prelude.{◌≡◌, ◌&&◌, ◌||◌, ◌+◌, ◌≤◌, ◌<◌, leb, length, get_or};
ghost use Rattle.shapes.specs.Rates.{pair_sums, prices_ok, all_within, priced_sum};

use crate::counts::Counts;

/// By strip the most bends, where 255 is none, as field 07 writes it, and so is none given; and the price of a bend, 1 where none is given.
#[derive(Clone, Copy)]
pub struct StripRates<'a> {
    pub limits: &'a [u8],
    pub prices: &'a [u8],
}

// Is each number `least` to `most`?
pub(crate) fn all_between(numbers: &[u8], least: u8, most: u8) -> bool
    ensures { result ≡ list_all (λ n. leb least n && leb n most) numbers.now }
{
    numbers.iter().all(|n| (least..=most).contains(n))
}

/// Is each price 1 to 100?
pub fn prices_ok(prices: &[u8]) -> bool
    ensures { result ≡ prices_ok prices.now }
{
    all_between(prices, 1, 100)
}

// The price of a bend of strip `i`, 1 where the list is shorter.
pub(crate) fn price_at(prices: &[u8], i: usize) -> u32
    ensures { (result ≡ get_or prices.now i 1) × (result < 256) }
{
    u32::from(prices.get(i).copied().unwrap_or(1))
}

// The right bends of both darts of a strip.
fn strip_bends(strip: [u8; 2]) -> u32
    ensures { (result ≡ get_or strip 0 0 + get_or strip 1 0) × (result < 512) }
{
    u32::from(strip[0]) + u32::from(strip[1])
}

// A limit of 255 is none.
fn keeps_limit(most: u32, bends: u32) -> bool
    ensures { result ≡ (leb 255 most || leb bends most) }
{
    255 <= most || bends <= most
}

/// Does each strip keep its limit? Strips behind the last limit have none.
pub fn limits_ok(limits: &[u8], counts: Counts) -> bool
    ensures { result ≡ all_within limits.now (pair_sums counts.entry.rights.now) }
{
    let (strips, _) = counts.rights.as_chunks::<2>();
    limits.iter().zip(strips).all(|(most, strip)| keeps_limit(
        u32::from(*most),
        strip_bends(*strip),
    ))
}

/// The bends of each strip times its price, together.
pub fn price_of(prices: &[u8], counts: Counts) -> u32
    ensures { result ≡ priced_sum prices.now (pair_sums counts.entry.rights.now) }
{
    let (strips, _) = counts.rights.as_chunks::<2>();
    strips
        .iter()
        .enumerate()
        .map(|(i, strip)| price_at(prices, i) * strip_bends(*strip))
        .sum()
}
