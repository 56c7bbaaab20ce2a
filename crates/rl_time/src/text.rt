ghost use Rattle.std.specs.Prelude.{◌≡◌, ◌≢◌, ◌⊎◌, ◌<◌, ◌++◌, length, codes, slice_index, Some, OnOk, OnErr, OnSome, IfSome, IfNone};
ghost use Rattle.std.specs.Bool.{OnTrue, OnFalse};
ghost use Rattle.std.specs.Option.{SomeIff};
ghost use Rattle.std.specs.Str.Parse.{digits_value};
ghost use Rattle.rl_time.specs.declared.time.Time.{Time};
ghost use Rattle.rl_time.specs.Text.{time_text, FitsIn64Bits, IsNumber};

use crate::time::{NoMemory, Time};
use itoa::Buffer;
use std::str;

/// The time that a text writes: `never`, or a decimal number of 64 bits without a leading zero, but
/// `0`. It answers `None` exactly where the text is neither.
pub fn read_time(text: &[u8]) -> Option<Time>
    ensures written { IfSome result (λ t. FitsIn64Bits t × (text.now ≡ time_text t)) }
    ensures read { (t : Time) → FitsIn64Bits t → text.now ≡ time_text t → result ≡ Some t }
    ensures some { OnSome result ((text.now ≡ codes "never") ⊎ IsNumber text.now) }
    ensures none { IfNone result ((text.now ≢ codes "never") × ¬ (IsNumber text.now)) }
{
    if is_never(text) {
        return Some(Time::Never);
    }
    let number = read_number(text)?;
    Some(Time::At(number))
}

/// Adds a time's text at the end.
pub fn put_time(to: &mut Vec<u8>, t: Time) -> Result<(), NoMemory>
    ensures ok { OnOk result (to.new.items ≡ to.old.items ++ time_text t) }
    ensures err { OnErr result (to.new.items ≡ to.old.items) }
{
    match t {
        Time::At(number) => {
            let mut buffer = Buffer::new();
            to.extend_from_slice(buffer.format(number).as_bytes())?;
        }
        Time::Never => to.extend_from_slice(b"never")?,
    }
    Ok(())
}

fn is_never(text: &[u8]) -> bool
    ensures yes { OnTrue result (text.now ≡ codes "never") }
    ensures no { OnFalse result (text.now ≢ codes "never") }
{
    text == b"never".as_slice()
}

/// The number of 64 bits that a text writes without a leading zero, but `0`.
fn read_number(text: &[u8]) -> Option<u64>
    ensures { SomeIff result (IsNumber text.now) (digits_value 10 text.now) }
{
    if !is_plain(text) {
        return None;
    }
    let Ok(digits) = str::from_utf8(text) else {
        return None;
    };
    match digits.parse() {
        Ok(number) => Some(number),
        Err(_) => None,
    }
}

/// Whether the text starts with neither `+` nor a leading zero.
fn is_plain(text: &[u8]) -> bool
    ensures plain { OnTrue result ((slice_index text.now 0 ≢ 43)
        × (slice_index text.now 0 ≡ 48 → length text.now ≡ 1)) }
    ensures other { OnFalse result ((slice_index text.now 0 ≡ 43)
        ⊎ ((slice_index text.now 0 ≡ 48) × (1 < length text.now))) }
{
    !matches!(text, [b'+', ..] | [b'0', _, ..])
}
