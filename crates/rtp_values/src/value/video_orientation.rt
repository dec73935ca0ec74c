//! Video orientation.

ghost use Rattle.std.specs.Prelude.{◌≡◌};
ghost use Rattle.rtp_values.specs.declared.kind.Extension.TheVariants.{VideoOrientation as OrientationKind};
ghost use Rattle.rtp_values.specs.KindBytes.{SetsFields, WritesData};
ghost use Rattle.rtp_values.specs.Values.{orientation_of};
ghost use Rattle.rtp_values.specs.Spelling.{HasRoom, orientation_bits};

use super::{GetValues, SetValues};
use rtp_base::put;

/// How the receiver has to turn the picture, in degrees counter-clockwise (3GPP TS 26.114, 7.4.5).
#[derive(Clone, Copy, Debug, PartialEq, Eq)]
pub enum VideoOrientation {
    /// Not at all.
    Deg0 = 0,
    /// By 270 degrees.
    Deg270 = 1,
    /// By 180 degrees.
    Deg180 = 2,
    /// By 90 degrees.
    Deg90 = 3,
}

impl From<u8> for VideoOrientation {
    ghost use Rattle.std.specs.Prelude.{◌≡◌};
    ghost use Rattle.rtp_values.specs.Values.{orientation_of};

    ghost from_gives = { λ number orientation. orientation ≡ orientation_of number };

    /// The orientation of this number: 1 is 270 degrees, 2 is 180, 3 is 90, and every other number
    /// is 0 degrees.
    fn from(v: u8) -> Self {
        match v {
            1 => VideoOrientation::Deg270,
            2 => VideoOrientation::Deg180,
            3 => VideoOrientation::Deg90,
            _ => VideoOrientation::Deg0,
        }
    }
}

// The orientation in two bits.
fn orientation_bits(orientation: VideoOrientation) -> u8
    ensures { result ≡ orientation_bits orientation }
{
    orientation as u8
}

pub(super) fn read<V: SetValues>(buf: &[u8], ev: &mut V) -> Option<()>
    ensures { SetsFields V.shows OrientationKind buf.now ev.old ev.new result }
{
    let byte = *buf.first()?;
    ev.set_video_orientation(VideoOrientation::from(byte & 0b11));
    Some(())
}

pub(super) fn write<V: GetValues>(buf: &mut [u8], ev: &V) -> Option<usize>
    requires room { HasRoom OrientationKind (V.values ev.now) buf.old }
    ensures { WritesData OrientationKind (V.values ev.now) buf.old buf.new result }
{
    let orientation = ev.video_orientation()?;
    Some(put(buf, 0, &[orientation_bits(orientation)]))
}
