//! The header extensions.

ghost use Rattle.std.specs.Prelude.{◌≡◌, IfOk};
ghost use Rattle.rtp_values.specs.Kind.{kind_of, IsKnown, IsNamedBy};

use super::Uri;
use super::known_kind::{kind_of, known_by_uri};
use std::alloc::{AllocError, Global};
use std::fmt;

/// A header extension: one that this library knows, or another by its URI (RFC 8285, 5).
///
/// The color space and unknown extensions have no field in
/// [`ExtensionValues`](crate::ExtensionValues): their elements are passed over when a block is read,
/// and none is written. So who forwards a packet by reading and writing its header drops them.
#[derive(Debug, PartialEq, Eq, Drop)]
pub enum Extension {
    /// When the packet left its sender, in seconds, as 6 whole and 18 fractional bits.
    AbsoluteSendTime,
    /// When the frame was captured, as an NTP timestamp, and the offset of the capturer's clock.
    AbsoluteCaptureTime,
    /// How loud the packet's audio is, and whether it has voice (RFC 6464).
    AudioLevel,
    /// How long after its timestamp the packet was sent: four bytes, where RFC 5450 has three.
    TransmissionTimeOffset,
    /// How the receiver has to turn the picture, counter-clockwise (3GPP TS 26.114).
    VideoOrientation,
    /// The packet's number on its transport, over all streams, for congestion control.
    TransportSequenceNumber,
    /// How long the receiver may hold the frame before it shows it, at least and at most.
    PlayoutDelay,
    /// What the video shows: a screen, or it is unspecified.
    VideoContentType,
    /// When the frame was encoded, packetized and sent.
    VideoTiming,
    /// The name of the stream in its media section (RFC 8852).
    RtpStreamId,
    /// The name of the stream that this one repairs (RFC 8852).
    RepairedRtpStreamId,
    /// The name of the media section (RFC 9143).
    RtpMid,
    /// Where frames begin and end, and which layer the packet is of: four bytes, where the draft
    /// has one to three.
    FrameMarking,
    /// The colour space of the video. It has no value here.
    ColorSpace,
    /// Which simulcast streams and layers of the video the sender keeps active.
    VideoLayersAllocation,
    /// An extension that this library doesn't know, by its URI. It is of no medium, and has no value.
    UnknownUri(Uri),
}

impl Extension {
    /// The extension that this URI names in SDP (`a=extmap`; RFC 8285, 5): the known kind whose URI
    /// it is, else an unknown one, which is the only case that takes memory. Where that is refused
    /// nothing is returned.
    pub fn from_sdp_uri(alloc: Global, uri: &str) -> Result<Self, AllocError>
        ensures named { IfOk result (IsNamedBy uri.now) }
        ensures known { (kind : Extension) → IsKnown kind → (kind_of kind).uri ≡ uri.now →
            result ≡ Ok kind }
        ensures back { IfOk result (λ found. (kind_of found).uri ≡ uri.now) }
    {
        match known_by_uri(uri) {
            Some(kind) => Ok(Extension::from(kind)),
            None => {
                let text = String::from_str(alloc, uri)?;
                Ok(Extension::UnknownUri(Uri::from(text)))
            }
        }
    }

    /// The URI that names the extension in SDP.
    pub fn as_uri(&self) -> &str
        ensures { result.now ≡ (kind_of self.now).uri }
    {
        kind_of(self).uri
    }

    /// Whether the extension is one of audio.
    pub fn is_audio(&self) -> bool
        ensures { result ≡ (kind_of self.now).audio }
    {
        kind_of(self).audio
    }

    /// Whether the extension is one of video.
    pub fn is_video(&self) -> bool
        ensures { result ≡ (kind_of self.now).video }
    {
        kind_of(self).video
    }

    /// The same extension. Only the text of an unknown one takes memory, and where that is refused
    /// nothing is returned.
    #[tactic(auto, using(crate::proofs::KindLemmas::unknown_is))]
    pub fn clone(&self, alloc: Global) -> Result<Self, AllocError>
        ensures same { IfOk result (λ copy. copy ≡ self.now) }
        ensures known { IsKnown self.now → result ≡ Ok self.now }
    {
        match self.known_kind() {
            Some(kind) => Ok(Extension::from(kind)),
            None => {
                let text = String::from_str(alloc, self.as_uri())?;
                Ok(Extension::UnknownUri(Uri::from(text)))
            }
        }
    }
}

impl fmt::Display for Extension {
    ghost use Rattle.std.specs.Prelude.{Some};
    ghost use Rattle.rtp_values.specs.Kind.{kind_of};

    ghost output = { λ kind. Some (kind_of kind).name };

    // The text is plain, whatever width and flags are set.
    ghost styled_output = { λ kind _. Some (kind_of kind).name };

    fn fmt<W: fmt::Write>(&self, f: &mut fmt::Formatter<W>) -> fmt::Result {
        f.write_str(kind_of(self).name)
    }
}
