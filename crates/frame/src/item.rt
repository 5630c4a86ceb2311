//! What a line of a stream is: a body or damage.
ghost use Rattle.std.specs.Prelude.{◌≡◌, ◌↔◌, ◌<◌, ◌++◌, ◌∷◌, [], ℕ, List, length, IsTrue};
ghost use Rattle.frame.specs.Bodies.{is_body};
ghost use Rattle.frame.specs.Frames.{IsFrame, HasNoShape, HasOtherSum, checksum, damage_number};
ghost use Rattle.frame.specs.Frames.{frame_text, hexadecimal_value, item_of_content, items};
ghost use Rattle.frame.specs.Frames.{shape_of};

use crate::body::{Body, MOST_BODY_BYTES};

/// The bytes of the longest frame: `$`, a body, `*` and two digits.
pub const MOST_FRAME_BYTES: usize = MOST_BODY_BYTES + 4;

/// Why a line is no frame. Of a line that a line feed ends it is the first that fits of `TooLong`,
/// `Shape` and `Checksum`.
#[derive(Clone, Copy, Debug, PartialEq, Eq)]
pub enum Damage {
    /// The line's content isn't `$`, a body, `*` and two hexadecimal digits of either case.
    Shape,
    /// The line's content has more than [`MOST_FRAME_BYTES`] bytes.
    TooLong,
    /// The two digits aren't the exclusive or of the body's bytes.
    Checksum,
    /// The stream ended before the line did.
    Cut,
}

impl Damage {
    /// The damage's number, 1 to 4 in the order of the variants.
    pub fn number(self) -> u32
        ensures { result ≡ damage_number self }
    {
        match self {
            Damage::Shape => 1,
            Damage::TooLong => 2,
            Damage::Checksum => 3,
            Damage::Cut => 4,
        }
    }
}

/// What a line of a stream is that isn't empty.
#[derive(Debug, PartialEq, Eq, Drop)]
pub enum Item {
    Body(Body),
    Damaged(Damage),
}

/// The exclusive or of the bytes.
pub(crate) fn checksum(bytes: &[u8]) -> u8
    ensures { result ≡ checksum bytes.now }
{
    bytes.iter().fold(0, |sum, byte| sum ^ *byte)
}

/// The value of a hexadecimal digit of either case.
fn hexadecimal_value(digit: u8) -> Option<u8>
    ensures { result ≡ hexadecimal_value digit }
{
    match digit {
        b'0'..=b'9' => Some(digit - b'0'),
        b'A'..=b'F' => Some(digit - b'A' + 10),
        b'a'..=b'f' => Some(digit - b'a' + 10),
        _ => None,
    }
}

/// The body and the spelled sum of a content that has the shape of a frame.
fn shape_of(content: &[u8]) -> Option<(Body, u8)>
    ensures { result ≡ shape_of content.now }
{
    let [b'$', body @ .., b'*', high, low] = content else {
        return None;
    };
    let body = Body::of(body)?;
    let high = hexadecimal_value(*high)?;
    let low = hexadecimal_value(*low)?;
    Some((body, 16 * high + low))
}

/// The item of a content that isn't empty.
pub(crate) fn item_of_content(content: &[u8]) -> Item
    ensures { result ≡ item_of_content content.now }
{
    if content.len() > MOST_FRAME_BYTES {
        return Item::Damaged(Damage::TooLong);
    }
    let Some((body, sum)) = shape_of(content) else {
        return Item::Damaged(Damage::Shape);
    };
    if sum != checksum(body.bytes()) {
        return Item::Damaged(Damage::Checksum);
    }
    Item::Body(body)
}

/// The law of frames: which contents of lines are which item. A content is read as a body exactly
/// where it is `$`, that body, `*` and two hexadecimal digits of either case, whose number is the
/// exclusive or of the body's bytes. Calling it does nothing.
pub fn frames_are_exact()
    ensures body { (content body : List ℕ) → (item_of_content content ≡ Item.Body body)
        ↔ IsFrame content body }
    ensures too_long { (content : List ℕ) → (item_of_content content ≡ Item.Damaged Damage.TooLong)
        ↔ (MOST_FRAME_BYTES < length content) }
    ensures shape { (content : List ℕ) → (item_of_content content ≡ Item.Damaged Damage.Shape)
        ↔ HasNoShape content }
    ensures checksum { (content : List ℕ) → (item_of_content content ≡ Item.Damaged Damage.Checksum)
        ↔ HasOtherSum content }
{}

/// The law of written frames: what is written for a body is read as that body, alone and before
/// whatever follows it. Calling it does nothing.
pub fn written_frames_are_read()
    ensures alone { (body : List ℕ) → IsTrue (is_body body)
        → items (frame_text body) ≡ Item.Body body ∷ [] }
    ensures before { (body more : List ℕ) → IsTrue (is_body body)
        → items (frame_text body ++ more) ≡ Item.Body body ∷ items more }
{}
