//! The texts of notices.
ghost use Rattle.std.specs.Prelude.{◌≡◌, ◌<◌, MatchOption};
ghost use Rattle.udp.specs.Notices.{IsNoticeOf, is_notice, notice_text};

use arrayvec::ArrayVec;
use byteorder::{BigEndian, ByteOrder};

/// The length of a notice's text, in bytes.
const NOTICE_SIZE: usize = 41;

/// The place of the sender's number in it. The number of the unit follows.
const MEMBER_PLACE: usize = 36;

/// A member's notice that a build of a unit failed there.
#[derive(Clone, Copy, Debug, PartialEq, Eq)]
pub struct Notice {
    /// The number of the member that sends it.
    pub member: u8,
    /// The number of the unit in the listing.
    pub unit: u32,
}

/// The listing that notices are about.
#[derive(Clone, Copy)]
pub struct Listing {
    pub digest: [u8; 32],
    /// The number of its units.
    pub units: u32,
}

/// Whether the bytes begin as a notice does.
pub fn is_notice(bytes: &[u8]) -> bool
    ensures { result ≡ is_notice bytes.now }
{
    bytes.starts_with(b"DPBT")
}

/// The text of a notice about a unit of the listing with this digest.
pub fn text_of(digest: &[u8; 32], notice: Notice) -> ArrayVec<u8, 41>
    ensures { result.items ≡ notice_text digest.now notice }
{
    let mut unit = [0; 4];
    BigEndian::write_u32(&mut unit, notice.unit);
    let mut text = ArrayVec::new();
    text.try_extend_from_slice(b"DPBT").unwrap();
    text.try_extend_from_slice(digest).unwrap();
    text.push(notice.member);
    text.try_extend_from_slice(&unit).unwrap();
    text
}

/// The notice with this text, if it is about one of the units of the listing with this digest and
/// this many units.
pub fn notice_in(digest: &[u8; 32], units: u32, text: &[u8]) -> Option<Notice>
    ensures { MatchOption result
        ((notice : Notice) → ¬ (IsNoticeOf (record { digest = digest.now; units = units })
        text.now notice))
        (IsNoticeOf (record { digest = digest.now; units = units }) text.now) }
{
    if text.len() != NOTICE_SIZE {
        return None;
    }
    let notice = Notice {
        member: text[MEMBER_PLACE],
        unit: BigEndian::read_u32(&text[MEMBER_PLACE + 1..]),
    };
    if notice.unit < units && text_of(digest, notice).as_slice() == text {
        Some(notice)
    } else {
        None
    }
}
