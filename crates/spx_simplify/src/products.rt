// Products of intervals. A product of two ends may need more than 128 bits.
ghost use Rattle.std.specs.Prelude.{◌≡◌, ◌*ℤ◌};
ghost use Rattle.spx_term.specs.Intervals.{products, product_of};
ghost use Rattle.spx_simplify.specs.Wide.{wide, least, greatest, end_at};

use crate::intervals::UNBOUNDED;
use spx_num::{Op, checked};
use spx_term::Interval;

/// A number, or on which side of those of 128 bits it lies.
#[derive(Clone, Copy)]
enum Wide {
    Below,
    Within(i128),
    Above,
}

/// The products of two numbers, one of each interval.
pub fn product(left: Interval, right: Interval) -> Interval
    ensures { result ≡ product_of left right }
{
    let Some(a) = left.low else {
        return UNBOUNDED;
    };
    let Some(b) = left.high else {
        return UNBOUNDED;
    };
    let Some(c) = right.low else {
        return UNBOUNDED;
    };
    let Some(d) = right.high else {
        return UNBOUNDED;
    };
    among(times(a, c), times(a, d), times(b, c), times(b, d))
}

/// From the least of four numbers to the greatest.
fn among(first: Wide, second: Wide, third: Wide, fourth: Wide) -> Interval
    ensures low { result.low ≡ end_at (least (least first second) (least third fourth)) }
    ensures high { result.high ≡ end_at (greatest (greatest first second) (greatest third fourth)) }
{
    Interval {
        low: end_at(least(least(first, second), least(third, fourth))),
        high: end_at(greatest(greatest(first, second), greatest(third, fourth))),
    }
}

fn times(a: i128, b: i128) -> Wide
    ensures { result ≡ wide (a *ℤ b) }
{
    match checked(Op::Mul, a, b) {
        Ok(value) => Wide::Within(value),
        Err(_) => {
            if a < 0 {
                return if b < 0 { Wide::Above } else { Wide::Below };
            }
            if b < 0 { Wide::Below } else { Wide::Above }
        }
    }
}

fn least(a: Wide, b: Wide) -> Wide
    ensures { result ≡ least a b }
{
    match (a, b) {
        (Wide::Within(x), Wide::Within(y)) => { if y < x { b } else { a } }
        (Wide::Below, _) => Wide::Below,
        (Wide::Above, _) => b,
        (_, Wide::Below) => Wide::Below,
        (_, Wide::Above) => a,
    }
}

fn greatest(a: Wide, b: Wide) -> Wide
    ensures { result ≡ greatest a b }
{
    match (a, b) {
        (Wide::Within(x), Wide::Within(y)) => { if x < y { b } else { a } }
        (Wide::Above, _) => Wide::Above,
        (Wide::Below, _) => b,
        (_, Wide::Above) => Wide::Above,
        (_, Wide::Below) => a,
    }
}

/// The end at a number. There is none where it does not fit in 128 bits.
fn end_at(value: Wide) -> Option<i128>
    ensures { result ≡ end_at value }
{
    match value {
        Wide::Within(value) => Some(value),
        Wide::Below => None,
        Wide::Above => None,
    }
}
