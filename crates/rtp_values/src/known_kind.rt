//! The known header extensions by themselves, and what is fixed for each.

ghost use Rattle.std.specs.Prelude.{◌≡◌, ◌≢◌, ◌↔◌, length, IsTrue, Some, IfSome, IfNone};
ghost use Rattle.rtp_values.specs.declared.known_kind.KnownKind.{KnownKind};
ghost use Rattle.rtp_values.specs.declared.known_kind.KnownKind.TheVariants.{PlayoutDelay};
ghost use Rattle.rtp_values.specs.Kind.{audio_and_video, audio_only, video_only, kind_of, IsKnown};
ghost use Rattle.rtp_values.specs.KindTable.{kind_in};
ghost use Rattle.rtp_values.specs.KnownKind.{extension_of_kind};

use super::Extension;
use rtp_vla::vla;
use std::mem::ManuallyDrop;

/// One of the header extensions that this library knows (RFC 8285, 5), in a byte. It is what
/// a packet needs of an [`Extension`]: how the data of its element are read and written.
#[derive(Clone, Copy, Debug, PartialEq, Eq)]
pub enum KnownKind {
    /// [`Extension::AbsoluteSendTime`].
    AbsoluteSendTime,
    /// [`Extension::AbsoluteCaptureTime`].
    AbsoluteCaptureTime,
    /// [`Extension::AudioLevel`].
    AudioLevel,
    /// [`Extension::TransmissionTimeOffset`].
    TransmissionTimeOffset,
    /// [`Extension::VideoOrientation`].
    VideoOrientation,
    /// [`Extension::TransportSequenceNumber`].
    TransportSequenceNumber,
    /// [`Extension::PlayoutDelay`].
    PlayoutDelay,
    /// [`Extension::VideoContentType`].
    VideoContentType,
    /// [`Extension::VideoTiming`].
    VideoTiming,
    /// [`Extension::RtpStreamId`].
    RtpStreamId,
    /// [`Extension::RepairedRtpStreamId`].
    RepairedRtpStreamId,
    /// [`Extension::RtpMid`].
    RtpMid,
    /// [`Extension::FrameMarking`].
    FrameMarking,
    /// [`Extension::ColorSpace`].
    ColorSpace,
    /// [`Extension::VideoLayersAllocation`].
    VideoLayersAllocation,
}

// How many known kinds there are.
pub(super) const KINDS: usize = 15;

impl KnownKind {
    /// The known kind that this URI names in SDP (`a=extmap`; RFC 8285, 5), and `None` exactly where
    /// it is the URI of none. Each character counts, also whether it is upper or lower case. Takes no
    /// memory.
    pub fn from_uri(uri: &str) -> Option<Self>
        ensures named { IfSome result (λ kind. (kind_of (extension_of_kind kind)).uri ≡ uri.now) }
        ensures none { IfNone result ((kind : Extension) → IsKnown kind → (kind_of kind).uri ≢ uri.now) }

        // No other kind has the URI.
        ensures known { (kind : KnownKind) → (kind_of (extension_of_kind kind)).uri ≡ uri.now →
            result ≡ Some kind }
    {
        known_by_uri(uri)
    }
}

impl From<KnownKind> for Extension {
    ghost use Rattle.std.specs.Prelude.{◌≡◌};
    ghost use Rattle.rtp_values.specs.KnownKind.{extension_of_kind};

    ghost from_gives = { λ kind extension. extension ≡ extension_of_kind kind };

    fn from(kind: KnownKind) -> Self {
        match kind {
            KnownKind::AbsoluteSendTime => Extension::AbsoluteSendTime,
            KnownKind::AbsoluteCaptureTime => Extension::AbsoluteCaptureTime,
            KnownKind::AudioLevel => Extension::AudioLevel,
            KnownKind::TransmissionTimeOffset => Extension::TransmissionTimeOffset,
            KnownKind::VideoOrientation => Extension::VideoOrientation,
            KnownKind::TransportSequenceNumber => Extension::TransportSequenceNumber,
            KnownKind::PlayoutDelay => Extension::PlayoutDelay,
            KnownKind::VideoContentType => Extension::VideoContentType,
            KnownKind::VideoTiming => Extension::VideoTiming,
            KnownKind::RtpStreamId => Extension::RtpStreamId,
            KnownKind::RepairedRtpStreamId => Extension::RepairedRtpStreamId,
            KnownKind::RtpMid => Extension::RtpMid,
            KnownKind::FrameMarking => Extension::FrameMarking,
            KnownKind::ColorSpace => Extension::ColorSpace,
            KnownKind::VideoLayersAllocation => Extension::VideoLayersAllocation,
        }
    }
}

impl Extension {
    /// The known kind that this extension is, and `None` exactly where it is an unknown one.
    pub fn known_kind(&self) -> Option<KnownKind>
        ensures known { IfSome result (λ kind. self.now ≡ extension_of_kind kind) }
        ensures unknown { IfNone result (IsKnown self.now → ⊥) }
    {
        Some(match self {
            Extension::UnknownUri(_) => return None,
            Extension::AbsoluteSendTime => KnownKind::AbsoluteSendTime,
            Extension::AbsoluteCaptureTime => KnownKind::AbsoluteCaptureTime,
            Extension::AudioLevel => KnownKind::AudioLevel,
            Extension::TransmissionTimeOffset => KnownKind::TransmissionTimeOffset,
            Extension::VideoOrientation => KnownKind::VideoOrientation,
            Extension::TransportSequenceNumber => KnownKind::TransportSequenceNumber,
            Extension::PlayoutDelay => KnownKind::PlayoutDelay,
            Extension::VideoContentType => KnownKind::VideoContentType,
            Extension::VideoTiming => KnownKind::VideoTiming,
            Extension::RtpStreamId => KnownKind::RtpStreamId,
            Extension::RepairedRtpStreamId => KnownKind::RepairedRtpStreamId,
            Extension::RtpMid => KnownKind::RtpMid,
            Extension::FrameMarking => KnownKind::FrameMarking,
            Extension::ColorSpace => KnownKind::ColorSpace,
            Extension::VideoLayersAllocation => KnownKind::VideoLayersAllocation,
        })
    }
}

// What is fixed for a kind.
#[derive(Clone, Copy)]
pub(super) struct Kind<'a> {
    pub(super) uri: &'a str,
    pub(super) name: &'a str,
    pub(super) audio: bool,
    pub(super) video: bool,
}

fn audio_and_video<'a>(uri: &'a str, name: &'a str) -> Kind<'a>
    ensures { kind_in result ≡ audio_and_video uri.now name.now }
{
    Kind {
        uri,
        name,
        audio: true,
        video: true,
    }
}

fn audio_only<'a>(uri: &'a str, name: &'a str) -> Kind<'a>
    ensures { kind_in result ≡ audio_only uri.now name.now }
{
    Kind {
        uri,
        name,
        audio: true,
        video: false,
    }
}

fn video_only<'a>(uri: &'a str, name: &'a str) -> Kind<'a>
    ensures { kind_in result ≡ video_only uri.now name.now }
{
    Kind {
        uri,
        name,
        audio: false,
        video: true,
    }
}

// The table of the kinds.
pub(super) fn kind_of(kind: &Extension) -> Kind<'_>
    ensures { kind_in result ≡ kind_of kind.now }
{
    match kind {
        Extension::AbsoluteSendTime => audio_and_video(
            "http://www.webrtc.org/experiments/rtp-hdrext/abs-send-time",
            "abs-send-time",
        ),
        Extension::AbsoluteCaptureTime => audio_and_video(
            "http://www.webrtc.org/experiments/rtp-hdrext/abs-capture-time",
            "abs-capture-time",
        ),
        Extension::AudioLevel => audio_only(
            "urn:ietf:params:rtp-hdrext:ssrc-audio-level",
            "ssrc-audio-level",
        ),
        Extension::TransmissionTimeOffset => audio_and_video(
            "urn:ietf:params:rtp-hdrext:toffset",
            "toffset",
        ),
        Extension::VideoOrientation => video_only(
            "urn:3gpp:video-orientation",
            "video-orientation",
        ),
        Extension::TransportSequenceNumber => audio_and_video(
            "http://www.ietf.org/id/draft-holmer-rmcat-transport-wide-cc-extensions-01",
            "transport-wide-cc",
        ),
        Extension::PlayoutDelay => audio_and_video(
            "http://www.webrtc.org/experiments/rtp-hdrext/playout-delay",
            "playout-delay",
        ),
        Extension::VideoContentType => video_only(
            "http://www.webrtc.org/experiments/rtp-hdrext/video-content-type",
            "video-content-type",
        ),
        Extension::VideoTiming => video_only(
            "http://www.webrtc.org/experiments/rtp-hdrext/video-timing",
            "video-timing",
        ),
        Extension::RtpStreamId => audio_and_video(
            "urn:ietf:params:rtp-hdrext:sdes:rtp-stream-id",
            "rtp-stream-id",
        ),
        Extension::RepairedRtpStreamId => audio_and_video(
            "urn:ietf:params:rtp-hdrext:sdes:repaired-rtp-stream-id",
            "repaired-rtp-stream-id",
        ),
        Extension::RtpMid => audio_and_video("urn:ietf:params:rtp-hdrext:sdes:mid", "mid"),
        Extension::FrameMarking => video_only(
            "http://tools.ietf.org/html/draft-ietf-avtext-framemarking-07",
            "frame-marking07",
        ),
        Extension::ColorSpace => video_only(
            "http://www.webrtc.org/experiments/rtp-hdrext/color-space",
            "color-space",
        ),
        Extension::VideoLayersAllocation => video_only(vla::URI, vla::URI),
        Extension::UnknownUri(uri) => Kind {
            uri: uri.as_str(),
            name: uri.as_str(),
            audio: false,
            video: false,
        },
    }
}

// The kind whose URI has so many bytes. That of the playout delay, which is as long as that of the
// absolute send time, is left out: no other two are as long.
fn kind_as_long(len: usize) -> Option<KnownKind>
    ensures { (kind : KnownKind) → kind ≢ PlayoutDelay →
        length (kind_of (extension_of_kind kind)).uri ≡ len → result ≡ Some kind }
{
    match len {
        26 => Some(KnownKind::VideoOrientation),
        34 => Some(KnownKind::TransmissionTimeOffset),
        35 => Some(KnownKind::RtpMid),
        43 => Some(KnownKind::AudioLevel),
        45 => Some(KnownKind::RtpStreamId),
        54 => Some(KnownKind::RepairedRtpStreamId),
        56 => Some(KnownKind::ColorSpace),
        57 => Some(KnownKind::VideoTiming),
        58 => Some(KnownKind::AbsoluteSendTime),
        60 => Some(KnownKind::FrameMarking),
        61 => Some(KnownKind::AbsoluteCaptureTime),
        63 => Some(KnownKind::VideoContentType),
        70 => Some(KnownKind::VideoLayersAllocation),
        73 => Some(KnownKind::TransportSequenceNumber),
        _ => None,
    }
}

// Whether this is the kind's URI.
fn is_uri_of(kind: KnownKind, uri: &str) -> bool
    ensures { IsTrue result ↔ ((kind_of (extension_of_kind kind)).uri ≡ uri.now) }
{
    // A known kind has no text of its own, and so nothing to free.
    let extension = ManuallyDrop::new(Extension::from(kind));
    extension.as_uri() == uri
}

// The known kind whose URI this is. Its length leaves one kind, or the playout delay.
pub(super) fn known_by_uri(uri: &str) -> Option<KnownKind>
    ensures found { IfSome result (λ kind. (kind_of (extension_of_kind kind)).uri ≡ uri.now) }
    ensures none { IfNone result ((kind : Extension) → IsKnown kind → (kind_of kind).uri ≢ uri.now) }
{
    let kind = kind_as_long(uri.len())?;
    if is_uri_of(kind, uri) {
        return Some(kind);
    }
    if is_uri_of(KnownKind::PlayoutDelay, uri) {
        return Some(KnownKind::PlayoutDelay);
    }
    None
}
