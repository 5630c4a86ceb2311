//! From bodies to the lines of a stream.
ghost use Rattle.std.specs.Prelude.{◌≡◌, ◌<◌};
ghost use Rattle.frame.specs.Frames.{frame_text, upper_digit};

use crate::body::Body;
use crate::item::{MOST_FRAME_BYTES, checksum};
use arrayvec::ArrayVec;

/// The bytes of the longest frame with its line feed.
pub const MOST_FRAME_TEXT_BYTES: usize = MOST_FRAME_BYTES + 1;

/// The hexadecimal digit of the number, in upper case.
fn upper_digit(number: u8) -> u8
    requires { number < 16 }
    ensures { result ≡ upper_digit number }
{
    match number {
        0..=9 => b'0' + number,
        _ => b'A' + (number - 10),
    }
}

/// The line of a body: `$`, the body, `*`, two digits in upper case, and a line feed.
pub fn write_frame(body: &Body) -> ArrayVec<u8, MOST_FRAME_TEXT_BYTES>
    ensures { result.items ≡ frame_text body.now }
{
    let bytes = body.bytes();
    let sum = checksum(bytes);
    let mut text = ArrayVec::new();
    text.push(b'$');
    text.try_extend_from_slice(bytes).unwrap();
    text.push(b'*');
    text.push(upper_digit(sum / 16));
    text.push(upper_digit(sum % 16));
    text.push(b'\n');
    text
}
