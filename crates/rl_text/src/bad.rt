ghost use Rattle.std.specs.Prelude.{◌≤◌, length, MatchOption};
ghost use Rattle.rl_text.specs.Tokens.{IsBad};
ghost use Rattle.rl_text.specs.Cursor.{HasTokens};

use crate::front::front;
use crate::token::Style;

/// The first place of a text of at most 67,108,864 bytes at which there is no token, gap or comment of the style, in
/// bytes from 0. It takes no memory. `None` where the text has tokens.
pub fn bad_place(text: &[u8], style: Style) -> Option<u32>
    requires { length text.now ≤ 67108864 }
    ensures bad { MatchOption result (HasTokens style text.now) (λ place. IsBad style text.now place) }
{
    let mut rest = text;
    let mut at: u32 = 0;
    while !rest.is_empty() {
        let Some((_, len)) = front(rest, style) else {
            return Some(at);
        };
        let (_, after) = rest.split_at(len);
        rest = after;
        at += len as u32;
    }
    None
}
