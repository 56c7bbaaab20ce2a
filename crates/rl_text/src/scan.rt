//! The first bad byte of a text of style Race, found byte by byte.
ghost use Rattle.std.specs.Prelude.{◌≡◌, ◌≤◌, length, MatchOption};
ghost use Rattle.rl_text.specs.declared.token.Style.TheVariants as style;
ghost use Rattle.rl_text.specs.Tokens.{IsBad};
ghost use Rattle.rl_text.specs.Cursor.{HasTokens};
ghost use Rattle.rl_text.specs.Scan.{is_plain, next_place};

use crate::place::Place;

// 1 at each byte that is good wherever it is outside of comments, and begins no comment, dash or arrow
#[rattlefmt::skip]
static PLAIN: [u8; 256] = [
    0, 0, 0, 0, 0, 0, 0, 0, 0, 1, 1, 0, 0, 1, 0, 0,
    0, 0, 0, 0, 0, 0, 0, 0, 0, 0, 0, 0, 0, 0, 0, 0,
    1, 0, 0, 0, 0, 0, 0, 0, 1, 1, 0, 0, 1, 0, 0, 0,
    1, 1, 1, 1, 1, 1, 1, 1, 1, 1, 1, 0, 0, 1, 0, 0,
    0, 1, 1, 1, 1, 1, 1, 1, 1, 1, 1, 1, 1, 1, 1, 1,
    1, 1, 1, 1, 1, 1, 1, 1, 1, 1, 1, 0, 0, 0, 0, 1,
    0, 1, 1, 1, 1, 1, 1, 1, 1, 1, 1, 1, 1, 1, 1, 1,
    1, 1, 1, 1, 1, 1, 1, 1, 1, 1, 1, 0, 0, 0, 0, 0,
    0, 0, 0, 0, 0, 0, 0, 0, 0, 0, 0, 0, 0, 0, 0, 0,
    0, 0, 0, 0, 0, 0, 0, 0, 0, 0, 0, 0, 0, 0, 0, 0,
    0, 0, 0, 0, 0, 0, 0, 0, 0, 0, 0, 0, 0, 0, 0, 0,
    0, 0, 0, 0, 0, 0, 0, 0, 0, 0, 0, 0, 0, 0, 0, 0,
    0, 0, 0, 0, 0, 0, 0, 0, 0, 0, 0, 0, 0, 0, 0, 0,
    0, 0, 0, 0, 0, 0, 0, 0, 0, 0, 0, 0, 0, 0, 0, 0,
    0, 0, 0, 0, 0, 0, 0, 0, 0, 0, 0, 0, 0, 0, 0, 0,
    0, 0, 0, 0, 0, 0, 0, 0, 0, 0, 0, 0, 0, 0, 0, 0,
];

/// Whether a byte outside of comments is good wherever it is, and begins no comment, dash or arrow.
fn is_plain(byte: u8) -> bool
    ensures { result ≡ is_plain byte }
{
    PLAIN[usize::from(byte)] == 1
}

/// Where a text is after a byte more. `None` where the byte is bad.
fn next_place(place: Place, byte: u8) -> Option<Place>
    ensures { result ≡ next_place place byte }
{
    if place == Place::Comment && byte != b'\n' {
        Some(Place::Comment)
    } else if is_plain(byte) {
        Some(Place::Between)
    } else if byte == b'#' {
        Some(Place::Comment)
    } else if byte == b'-' {
        Some(Place::Dash)
    } else if byte == b'>' && place == Place::Dash {
        Some(Place::Between)
    } else {
        None
    }
}

/// The first place of a text of at most 67,108,864 bytes at which there is no token, gap or comment of style Race. It
/// takes no memory. `None` where the text has tokens.
pub fn first_bad(text: &[u8]) -> Option<u32>
    requires { length text.now ≤ 67108864 }
    ensures bad { MatchOption result (HasTokens style.Race text.now) (λ place. IsBad style.Race text.now place) }
{
    let mut place = Place::Between;
    for (at, byte) in text.iter().enumerate() {
        match next_place(place, *byte) {
            Some(next) => place = next,
            None => return Some(at as u32),
        }
    }
    None
}
