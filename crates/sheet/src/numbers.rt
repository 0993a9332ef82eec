//! Numbers as the sheet writes them.
ghost use Rattle.std.specs.Prelude.{◌≡◌};
ghost use Rattle.sheet.specs.Numbers.{number_of, NumbersStand};

/// A number that was printed is read back as itself.
pub fn numbers_stand()
    ensures { NumbersStand }
{}

/// The number that `bytes` write: one to four digits, with no needless zero in front.
pub fn number(bytes: &[u8]) -> Option<u16>
    ensures { result ≡ number_of bytes.now }
{
    if bytes.is_empty() || bytes.len() > 4 {
        return None;
    }
    if bytes[0] == b'0' && bytes.len() > 1 {
        return None;
    }
    let mut n = 0u16;
    for b in bytes {
        if *b < b'0' || *b > b'9' {
            return None;
        }
        n = n * 10 + u16::from(*b - b'0');
    }
    Some(n)
}
