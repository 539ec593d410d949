// A proposal in hexadecimal digits, as it stands in front of a line.
ghost use Rattle.std.specs.Prelude.{◌≤◌, length, IfOk};

// Why no proposal could be read: it is too long, or has a byte that is no digit or a digit too few.
#[derive(Clone, Copy, Debug, PartialEq, Eq)]
pub enum Malformed {
    TooLong,
    Wrong,
}

// The byte that two digits stand for.
fn byte_of(high: u8, low: u8) -> Option<u8> {
    let high = char::from(high).to_digit(16)?;
    let low = char::from(low).to_digit(16)?;
    u8::try_from(high * 16 + low).ok()
}

// Reads digits two by two, and says how many bytes they stand for.
pub fn read_bytes(digits: &[u8], proposal: &mut [u8]) -> Result<usize, Malformed>
    ensures { IfOk result (λ n. n ≤ length proposal.new) }
{
    let all = digits.len() / 2;
    if proposal.len() < all {
        return Err(Malformed::TooLong);
    }
    if digits.len() % 2 == 1 {
        return Err(Malformed::Wrong);
    }
    for i in 0..all {
        let Some(byte) = byte_of(digits[2 * i], digits[2 * i + 1]) else {
            return Err(Malformed::Wrong);
        };
        proposal[i] = byte;
    }
    Ok(all)
}
