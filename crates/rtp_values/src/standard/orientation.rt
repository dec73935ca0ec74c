//! Coordination of video orientation (3GPP TS 26.114, 7.4.5): one byte, `0 0 0 0 C F R1 R0`.

ghost use Rattle.std.specs.Prelude.{◌≡◌, [], ◌∷◌, length, slice_index};
ghost use Rattle.std.specs.Option.{SomeIff};
ghost use Rattle.rtp_values.specs.StandardOrientation.{camera_bit, orientation_byte, orientation_in};

use super::bits::has_bit;
use crate::VideoOrientation;

/// Which way the camera of a video faces (3GPP TS 26.114, 7.4.5).
#[derive(Clone, Copy, Debug, PartialEq, Eq)]
pub enum Camera {
    /// Towards the user.
    Front = 0,
    /// Away from the user.
    Back = 1,
}

/// How a picture was taken, and is to be shown (3GPP TS 26.114, 7.4.5).
#[derive(Clone, Copy, Debug, PartialEq, Eq)]
pub struct Orientation {
    /// Which way the camera faces.
    pub camera: Camera,
    /// Whether the picture is mirrored, left for right.
    pub flip: bool,
    /// How the receiver has to turn the picture, counter-clockwise.
    pub turn: VideoOrientation,
}

impl Orientation {
    /// Reads an orientation. `Some` exactly when there is one byte. Its high four bits, which are
    /// zeros here and part of a finer angle under `urn:3gpp:video-orientation:6`, are ignored.
    ///
    /// ```
    /// let orientation = Orientation::parse(b"\x0E")?;
    /// assert_eq!(orientation.camera, Camera::Back);
    /// assert!(orientation.flip);
    /// assert_eq!(orientation.turn, VideoOrientation::Deg180);
    /// ```
    pub fn parse(bytes: &[u8]) -> Option<Self>
        ensures { SomeIff result (length bytes.now ≡ 1) (orientation_in (slice_index bytes.now 0)) }
    {
        let [byte] = *bytes else {
            return None;
        };
        Some(Orientation {
            camera: if has_bit(byte, 3) {
                Camera::Back
            } else {
                Camera::Front
            },
            flip: has_bit(byte, 2),
            turn: VideoOrientation::from(byte & 3),
        })
    }

    /// The data of the orientation, with zeros in the high four bits.
    pub fn to_bytes(self) -> [u8; 1]
        ensures bytes { result ≡ orientation_byte self ∷ [] }
        ensures back { orientation_in (orientation_byte self) ≡ self }
    {
        [self.camera as u8 * 8 + u8::from(self.flip) * 4 + self.turn as u8]
    }
}
