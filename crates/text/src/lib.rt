//! Texts put one after another, into a lent buffer or into a place of bounded size.
//!
//! Not by `Display`: no contract of it says that writing succeeds where there is room.

#![tactic(auto, unfolding(crate::specs::Texts::added))]

ghost use Rattle.std.specs.Prelude.{◌≡◌, ◌+◌, ◌≤◌, length, decimal};
ghost use Rattle.few.specs.Few.{items};
ghost use Rattle.text.specs.Texts.{put, written, ended, added};

use few::Few;

/// Writes `bytes` into `out` from `at` on and tells where they end.
/// Where they do not fit, it changes nothing and tells `at`.
pub fn put_bytes(out: &mut [u8], at: usize, bytes: &[u8]) -> usize
    ensures value { result ≡ ended out.old at bytes.now }
    ensures after { out.new ≡ written out.old at bytes.now }
{
    if at > out.len() || bytes.len() > out.len() - at {
        return at;
    }
    let end = at + bytes.len();
    out[at..end].copy_from_slice(bytes);
    end
}

/// Writes `n` in base ten into `out` from `at` on and tells where it ends.
/// Where it does not fit, it changes nothing and tells `at`.
pub fn put_number(out: &mut [u8], at: usize, n: usize) -> usize
    ensures value { result ≡ ended out.old at (decimal n) }
    ensures after { out.new ≡ written out.old at (decimal n) }
{
    if at > out.len() || digit_count(n) > out.len() - at {
        return at;
    }
    put_digits(out, at, n)
}

/// Adds `bytes` to a text where they fit, and else changes nothing.
pub fn add_bytes<const CAP: usize>(text: &mut Few<u8, CAP>, bytes: &[u8])
    ensures { items text.new ≡ added CAP (items text.old) bytes.now }
{
    // What does not fit is left out, and the length tells.
    let _ = text.append(bytes);
}

/// Adds `n` in base ten to a text where it fits, and else changes nothing.
pub fn add_number<const CAP: usize>(text: &mut Few<u8, CAP>, n: usize)
    ensures { items text.new ≡ added CAP (items text.old) (decimal n) }
{
    // One digit, as most numbers have here, needs no place of its own.
    if n < 10 {
        return add_bytes(text, &[b'0' + n as u8]);
    }
    let mut digits = [0; 20];
    let size = put_number(&mut digits, 0, n);
    add_bytes(text, &digits[..size]);
}

// How many digits `n` has in base ten.
fn digit_count(n: usize) -> usize
    ensures value { result ≡ length (decimal n) }
    ensures bound { result ≤ 20 }
{
    let mut count = 1;
    let mut rest = n;
    while rest >= 10 {
        count += 1;
        rest /= 10;
    }
    count
}

// Writes the digits of `n`, for which there is room.
fn put_digits(out: &mut [u8], at: usize, n: usize) -> usize
    requires { at + length (decimal n) ≤ length out.old }
    ensures value { result ≡ at + length (decimal n) }
    ensures after { out.new ≡ put out.old at (decimal n) }
{
    if n < 10 {
        out[at] = b'0' + n as u8;
        return at + 1;
    }
    let end = put_digits(out, at, n / 10);
    out[end] = b'0' + (n % 10) as u8;
    end + 1
}
