ghost use Rattle.std.specs.Prelude.{◌+◌, ◌<◌, ◌≤◌, length, IfSome, MatchOption, slice_index};
ghost use Rattle.printouts.specs.Numerals.{Longest, Took, Bare};

// The number at the start of a text, and what follows it.
pub(crate) fn read_number(text: &[u8]) -> Option<(u32, &[u8])>
    ensures reads { MatchOption result (Bare text.now) (λ x. Took text.now x.0 x.1.now) }
    ensures lens { IfSome result (λ x. (length x.1.now < length text.now) × (length text.now ≤ length x.1.now + 5)) }
{
    match text {
        [b'0', ..] => Some(read_digits(text, 1)),
        [b'1'..=b'9', ..] => Some(read_digits(text, 5)),
        _ => None,
    }
}

// The number of up to `most` digits at the start of a text, and what follows it. The loop gives both; a fold over the digits would leave the second to be
// counted again.
fn read_digits(text: &[u8], most: u8) -> (u32, &[u8])
    requires { Longest (slice_index text.now 0) most }
    ensures reads { Took text.now result.0 result.1.now }
    ensures lens { (length result.1.now < length text.now) × (length text.now ≤ length result.1.now + 5) }
{
    let mut value = 0u32;
    let mut rest = text;
    for _ in 0..most {
        let [digit @ b'0'..=b'9', more @ ..] = rest else {
            break;
        };
        value = value * 10 + u32::from(*digit - b'0');
        rest = more;
    }
    (value, rest)
}
