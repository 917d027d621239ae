//! Walks over ten shapes, and a caller that walks.

ghost use Rattle.std.specs.Prelude.{◌≡◌};
ghost use Rattle.apl_base.specs.Array.{size_of};

use super::*;
use apl_base::Shape;
use std::alloc::Global;
use std::fmt::Write;
use std::test::Fail;

// A caller that walks by `for`: the items come in the order of their places, and there are as many as elements.
fn count_in_order(shape: &Shape) -> u64
    ensures { result ≡ size_of shape.now }
{
    let mut count = 0;
    for index in Odometer::new(shape, false) {
        let place = shape.place_of(index.as_slice());
        prove_eq!(place, count);
        count += 1;
    }
    count
}

// A caller that only counts.
fn count_backwards(shape: &Shape) -> usize
    ensures { result ≡ size_of shape.now }
{
    Odometer::new(shape, true).count()
}

#[test]
fn callers_know_the_items(rt: HostRuntime) -> Result<(), Fail> {
    let shape = Shape::of(rt.alloc(), &[2, 3, 4])?;
    assert_eq!(rt; count_in_order(&shape), 24);
    assert_eq!(rt; count_backwards(&shape), 24);
    Ok(())
}

// The items of a walk, each as its numbers and a bar.
fn walked(alloc: Global, lengths: &[u64], back: bool) -> Result<String, Fail> {
    let mut text = String::new(alloc);
    for index in Odometer::new(&Shape::of(alloc, lengths)?, back) {
        for number in index.as_slice() {
            write!(text, "{number}")?;
        }
        text.push('|')?;
    }
    Ok(text)
}

#[test]
fn walks_of_small_shapes(rt: HostRuntime) -> Result<(), Fail> {
    let rows: [(&[u64], &str, &str); 10] = [
        (&[], "|", "|"),
        (&[0], "", ""),
        (&[1], "0|", "0|"),
        (&[3], "0|1|2|", "2|1|0|"),
        (&[2, 3], "00|01|02|10|11|12|", "02|01|00|12|11|10|"),
        (&[3, 1], "00|10|20|", "00|10|20|"),
        (&[1, 3], "00|01|02|", "02|01|00|"),
        (&[2, 0], "", ""),
        (&[2, 1, 2], "000|001|100|101|", "001|000|101|100|"),
        (&[2, 0, 2], "", ""),
    ];
    for (lengths, forwards, back) in rows.iter() {
        assert_eq!(rt; walked(rt.alloc(), lengths, false)?.as_str(), *forwards);
        assert_eq!(rt; walked(rt.alloc(), lengths, true)?.as_str(), *back);
    }
    Ok(())
}
