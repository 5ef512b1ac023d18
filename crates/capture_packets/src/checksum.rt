//! The checksum of the internet (RFC 1071).

ghost use Rattle.std.specs.Prelude.{◌≡◌, ◌*◌, ◌≤◌, length};
ghost use Rattle.capture_packets.specs.Headers.{checksum, sum_of_words};

/// The sum of the words of two octets; a last octet alone is the first one of its word.
pub fn sum_of_words(octets: &[u8]) -> u64
    requires { length octets.now ≤ 65535 }
    ensures sum { result ≡ sum_of_words octets.now }
    ensures few { result ≤ 65536 * length octets.now }
{
    let mut sum: u64 = 0;
    let mut rest = octets;
    while let [high, low, behind @ ..] = rest {
        sum += 256 * u64::from(*high) + u64::from(*low);
        rest = behind;
    }
    match rest {
        [last, ..] => sum + 256 * u64::from(*last),
        [] => sum,
    }
}

/// The checksum of words with this sum.
pub fn checksum_of(sum: u64) -> u16
    ensures { result ≡ checksum sum }
{
    if sum == 0 {
        return u16::MAX;
    }
    (65534 - (sum - 1) % 65535) as u16
}
