//! INTEGER and ENUMERATED: two's complement in the fewest octets (X.690, 8.3 and 8.4), here eight at most.
ghost use Rattle.std.specs.Prelude.{◌≡◌, ◌≤◌, ◌<◌, ◌-◌, ◌*◌, ◌^◌, length, pos, negsuc};
ghost use Rattle.x5_model_octets.specs.Headers.{big_endian};
ghost use Rattle.x5_model_typed.specs.Leaves as leaves;
ghost use Rattle.x5_types.specs.FormView.{numbers_view};
ghost use Rattle.x5_types.specs.NodeView.{option_view};

use crate::form::Numbers;
use crate::node::Node;

/// Whether the first nine bits aren't all alike.
fn is_shortest(octets: &[u8]) -> bool
    ensures { result ≡ leaves.is_shortest octets.now }
{
    match octets {
        [] => false,
        [_] => true,
        [first, second, ..] => !(*first == 0 && *second < 128)
            && !(*first == 255 && 128 <= *second),
    }
}

/// The number that octets give, the highest first.
fn magnitude(octets: &[u8]) -> u64
    requires { length octets.now ≤ 8 }
    ensures { result ≡ big_endian 0 octets.now }
{
    let mut number: u64 = 0;
    for octet in octets {
        number = number * 256 + u64::from(*octet);
    }
    number
}

/// The largest number that so many octets give.
fn largest(count: usize) -> u64
    requires { count ≤ 8 }
    ensures { result ≡ 2 ^ (8 * count) - 1 }
{
    match count {
        0 => 0,
        1 => 0xff,
        2 => 0xffff,
        3 => 0xff_ffff,
        4 => 0xffff_ffff,
        5 => 0xff_ffff_ffff,
        6 => 0xffff_ffff_ffff,
        7 => 0xff_ffff_ffff_ffff,
        _ => 0xffff_ffff_ffff_ffff,
    }
}

/// The number in two's complement.
fn complement(octets: &[u8]) -> i64
    requires { length octets.now ≤ 8 }
    ensures { result ≡ leaves.complement octets.now }
{
    let Some((first, _)) = octets.split_first() else {
        return 0;
    };
    let number = magnitude(octets);
    if *first < 128 {
        from_zero(number)
    } else {
        below_zero(largest(octets.len()) - number)
    }
}

fn from_zero(number: u64) -> i64
    requires { number < 2 ^ 63 }
    ensures { result ≡ pos number }
{
    number as i64
}

/// The number -1 less so much.
fn below_zero(number: u64) -> i64
    requires { number < 2 ^ 63 }
    ensures { result ≡ negsuc number }
{
    -1 - number as i64
}

fn number_of(octets: &[u8]) -> Option<i64>
    ensures { result ≡ leaves.number_of octets.now }
{
    if is_shortest(octets) && octets.len() <= 8 {
        Some(complement(octets))
    } else {
        None
    }
}

/// Whether the number is one of these. No memory.
pub fn is_among(numbers: Numbers, number: i64) -> bool
    ensures { result ≡ numbers_view numbers number }
{
    match numbers {
        Numbers::Any => true,
        Numbers::FromTo(low, high) => i64::from(low) <= number && number <= i64::from(high),
        Numbers::RefType => matches!(number, 1 | 2 | 3 | 4 | 5 | 8),
    }
}

/// The number that the octets say, if it is one of these.
pub(crate) fn number<'a>(numbers: Numbers, octets: &[u8]) -> Option<Node<'a>>
    ensures { option_view result ≡ (leaves.number (numbers_view numbers)).reads octets.now }
{
    let number = number_of(octets)?;
    if is_among(numbers, number) {
        Some(Node::Number(number))
    } else {
        None
    }
}
