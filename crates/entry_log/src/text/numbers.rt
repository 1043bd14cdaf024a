//! Numbers in decimal. Most of what an entry prints is numbers, and most of them are small.
ghost use Rattle.std.specs.Prelude.{◌≡◌, ◌+◌, ◌≤◌, ◌<◌, ◌++◌, length};
ghost use Rattle.std.specs.Fmt.{decimal, signed_decimal};
ghost use Rattle.entry_log.specs.Pair.{pair_text};

use super::line::{Line, put, put_byte};
use itoa::{Buffer, Integer};

/// The two digits of each number below 100.
const PAIRS: [u8; 200] =
    *b"00010203040506070809101112131415161718192021222324252627282930313233343536373839404142434445464748495051525354555657585960616263646566676869707172737475767778798081828384858687888990919293949596979899";

/// Adds a number of any size.
fn put_number<I: Integer>(line: &mut Line, number: I)
    requires { length line.old.items + length (I.text number) ≤ 512 }
    ensures { line.new.items ≡ line.old.items ++ I.text number }
{
    let mut digits = Buffer::new();
    put(line, digits.format(number).as_bytes());
}

/// Adds a number of one digit.
#[tactic(auto, using(std::proofs::lemmas::Fmt::decimal_digit))]
fn put_digit(line: &mut Line, number: u8)
    requires digit { number < 10 }
    requires room { length line.old.items + 1 ≤ 512 }
    ensures text { line.new.items ≡ line.old.items ++ decimal number }
    ensures short { length line.new.items ≤ length line.old.items + 1 }
{
    line.push(48 + number);
}

/// Adds the two digits of a number below 100.
fn put_pair(line: &mut Line, number: u32)
    requires pair { number < 100 }
    requires room { length line.old.items + 2 ≤ 512 }
    ensures { line.new.items ≡ line.old.items ++ pair_text number }
{
    let at = 2 * number as usize;
    put_byte(line, PAIRS[at]);
    put_byte(line, PAIRS[at + 1]);
}

/// Adds a number of at most 2 digits.
fn put_two_digits(line: &mut Line, number: u32)
    requires digits { number < 100 }
    requires room { length line.old.items + length (decimal number) ≤ 512 }
    ensures { line.new.items ≡ line.old.items ++ decimal number }
{
    if number < 10 {
        return put_digit(line, number as u8);
    }
    put_pair(line, number);
}

/// Adds a number of at most 4 digits.
fn put_four_digits(line: &mut Line, number: u32)
    requires digits { number < 10000 }
    requires room { length line.old.items + length (decimal number) ≤ 512 }
    ensures { line.new.items ≡ line.old.items ++ decimal number }
{
    if number < 100 {
        return put_two_digits(line, number);
    }
    put_two_digits(line, number / 100);
    put_pair(line, number % 100);
}

/// Adds a number of at most 6 digits.
fn put_six_digits(line: &mut Line, number: u32)
    requires digits { number < 1000000 }
    requires room { length line.old.items + length (decimal number) ≤ 512 }
    ensures { line.new.items ≡ line.old.items ++ decimal number }
{
    if number < 10000 {
        return put_four_digits(line, number);
    }
    put_four_digits(line, number / 100);
    put_pair(line, number % 100);
}

/// Adds a number of at most 8 digits. Few numbers are that long, so it is not copied into its callers.
#[inline(never)]
fn put_eight_digits(line: &mut Line, number: u32)
    requires digits { number < 100000000 }
    requires room { length line.old.items + length (decimal number) ≤ 512 }
    ensures { line.new.items ≡ line.old.items ++ decimal number }
{
    if number < 1000000 {
        return put_six_digits(line, number);
    }
    put_six_digits(line, number / 100);
    put_pair(line, number % 100);
}

/// Adds a number, two digits at a time.
fn put_digits(line: &mut Line, number: u32)
    requires { length line.old.items + length (decimal number) ≤ 512 }
    ensures { line.new.items ≡ line.old.items ++ decimal number }
{
    if number < 10000 {
        put_four_digits(line, number);
    } else if number < 1000000 {
        put_four_digits(line, number / 100);
        put_pair(line, number % 100);
    } else if number < 100000000 {
        put_six_digits(line, number / 100);
        put_pair(line, number % 100);
    } else {
        put_eight_digits(line, number / 100);
        put_pair(line, number % 100);
    }
}

/// Adds a number of one byte, at most 3 digits. Most have one.
pub fn put_u8(line: &mut Line, number: u8)
    requires { length line.old.items + 3 ≤ 512 }
    ensures text { line.new.items ≡ line.old.items ++ decimal number }
    ensures short { length line.new.items ≤ length line.old.items + 3 }
{
    if number < 10 {
        return put_digit(line, number);
    }
    put_digits(line, number as u32);
}

/// Adds a number of two bytes, at most 5 digits. Most have few.
pub fn put_u16(line: &mut Line, number: u16)
    requires { length line.old.items + 5 ≤ 512 }
    ensures text { line.new.items ≡ line.old.items ++ decimal number }
    ensures short { length line.new.items ≤ length line.old.items + 5 }
{
    if number < 10 {
        return put_digit(line, number as u8);
    }
    put_digits(line, number as u32);
}

/// Adds a number of four bytes, at most 10 digits. Most have few.
pub fn put_u32(line: &mut Line, number: u32)
    requires { length line.old.items + 10 ≤ 512 }
    ensures text { line.new.items ≡ line.old.items ++ decimal number }
    ensures short { length line.new.items ≤ length line.old.items + 10 }
{
    if number < 10 {
        return put_digit(line, number as u8);
    }
    put_digits(line, number);
}

/// Adds a code in decimal, with its sign where it is negative.
pub fn put_code(line: &mut Line, code: i32)
    requires { length line.old.items + 11 ≤ 512 }
    ensures text { line.new.items ≡ line.old.items ++ signed_decimal code }
    ensures short { length line.new.items ≤ length line.old.items + 11 }
{
    if code < 0 {
        return put_number(line, code);
    }
    put_u32(line, code as u32);
}
