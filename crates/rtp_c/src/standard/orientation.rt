//! Coordination of video orientation (3GPP TS 26.114, 7.4.5).

ghost use Rattle.std.specs.Prelude.{◌≡◌, ◌≢◌, length, slice_index, IfSome, IfNone};
ghost use Rattle.rtp_values.specs.StandardOrientation.{camera_bit, orientation_in};
ghost use Rattle.rtp_values.specs.declared.standard.orientation.Camera.{Camera as Facing};
ghost use Rattle.rtp_values.specs.declared.standard.orientation.Orientation.{Orientation as Taken};
ghost use Rattle.rtp_c.specs.StandardData.{TellsValue, WritesData};
ghost use Rattle.rtp_c.specs.StandardOrientation.{IsViewOfOrientation, IsGivenOrientation, AreOrientationData};

use super::putting::put_data;
use crate::given::orientation_of;
use crate::set_values::degrees;
use crate::status::{BAD_FIELD, OK};
use crate::values::flag_number;
use rtp_values::standard::{Camera, Orientation};

/// How a picture was taken, and is to be shown: `rtpw_orientation` in C, 4 bytes.
#[repr(C)]
#[derive(Clone, Copy)]
pub struct OrientationView {
    /// How the receiver has to turn the picture, in degrees counter-clockwise: 0, 90, 180 or 270.
    pub turn: u16,
    /// Which way the camera faces: 0 towards the user, 1 away from the user.
    pub camera: u8,
    /// Whether the picture is mirrored, left for right: 0 or 1.
    pub flip: u8,
}

// The camera of this number.
fn camera_of(number: u8) -> Option<Camera>
    ensures found { IfSome result (λ camera. camera_bit camera ≡ number) }
    ensures none { IfNone result ((camera : Facing) → camera_bit camera ≢ number) }
{
    match number {
        0 => Some(Camera::Front),
        1 => Some(Camera::Back),
        _ => None,
    }
}

// The orientation that is given.
fn given_orientation(view: &OrientationView) -> Option<Orientation>
    ensures found { IfSome result (IsGivenOrientation view.now) }
    ensures none { IfNone result ((taken : Taken) → IsGivenOrientation view.now taken → ⊥) }
{
    Some(Orientation {
        camera: camera_of(view.camera)?,
        flip: view.flip != 0,
        turn: orientation_of(view.turn)?,
    })
}

/// Reads how a picture was taken, and is to be shown (3GPP TS 26.114, 7.4.5). `OK`, or `BAD_FIELD`
/// where there isn't one byte, and then nothing is written.
#[unsafe(no_mangle)]
pub extern "C" fn rtpw_read_orientation(bytes: &[u8], orientation: &mut OrientationView) -> i32
    ensures { TellsValue (IsViewOfOrientation (orientation_in (slice_index bytes.now 0)))
        (length bytes.now ≡ 1) orientation.old orientation.new result }
{
    let Some(read) = Orientation::parse(bytes) else {
        return BAD_FIELD;
    };
    *orientation = OrientationView {
        turn: degrees(read.turn),
        camera: read.camera as u8,
        flip: flag_number(read.flip),
    };
    OK
}

/// Writes how a picture was taken, and is to be shown, to the front of the buffer (3GPP TS 26.114,
/// 7.4.5). `OK`, and that it is one byte is written too; `BAD_FIELD` where there is no such turn or
/// camera; `SHORT_BUFFER` where only the room is short. Where it isn't `OK` nothing is written.
#[unsafe(no_mangle)]
pub extern "C" fn rtpw_write_orientation(
    orientation: &OrientationView,
    buf: &mut [u8],
    len: &mut usize,
) -> i32
    ensures { WritesData (AreOrientationData orientation.now) buf.old buf.new len.old len.new result }
{
    let Some(given) = given_orientation(orientation) else {
        return BAD_FIELD;
    };
    put_data(&given.to_bytes(), buf, len)
}
