//! The kinds of which no value is read or written, known by their URIs (RFC 8285, 5).

ghost use Rattle.std.specs.Prelude.{◌≡◌, ◌≢◌, ◌↔◌, length, IsTrue, Some, IfSome, IfNone};
ghost use Rattle.rtp_c.specs.declared.bare_kind.BareKind.{BareKind as Kind};
ghost use Rattle.rtp_c.specs.declared.bare_kind.BareKind.TheVariants.{Ntp56};
ghost use Rattle.rtp_c.specs.KindNumbers.{bare_number, bare_uri};

/// A kind of header extension that has a number and a URI, and no field among the values: its data
/// are read and written by themselves.
#[derive(Clone, Copy)]
pub enum BareKind {
    /// The audio levels of the contributing sources (RFC 6465).
    MixerLevels,
    /// The transport-wide number with a request for feedback.
    TransportNumber2,
    /// The dependency descriptor of AV1.
    DependencyDescriptor,
    /// An NTP timestamp of 64 bits (RFC 6051).
    Ntp64,
    /// The low 56 bits of an NTP timestamp (RFC 6051).
    Ntp56,
}

impl BareKind {
    // The number by which C names the kind: the kinds stand in the order of their numbers.
    pub fn number(self) -> u8
        ensures { result ≡ bare_number self }
    {
        self as u8 + 16
    }

    // The kind of this number.
    pub fn numbered(number: u8) -> Option<Self>
        ensures found { IfSome result (λ kind. bare_number kind ≡ number) }
        ensures none { IfNone result ((kind : Kind) → bare_number kind ≢ number) }
    {
        match number {
            16 => Some(BareKind::MixerLevels),
            17 => Some(BareKind::TransportNumber2),
            18 => Some(BareKind::DependencyDescriptor),
            19 => Some(BareKind::Ntp64),
            20 => Some(BareKind::Ntp56),
            _ => None,
        }
    }

    // The URI that names the kind in SDP.
    pub fn uri(self) -> &'static str
        ensures { result.now ≡ bare_uri self }
    {
        match self {
            BareKind::MixerLevels => "urn:ietf:params:rtp-hdrext:csrc-audio-level",
            BareKind::TransportNumber2 => {
                "http://www.webrtc.org/experiments/rtp-hdrext/transport-wide-cc-02"
            }
            BareKind::DependencyDescriptor => {
                "https://aomediacodec.github.io/av1-rtp-spec/#dependency-descriptor-rtp-header-extension"
            }
            BareKind::Ntp64 => "urn:ietf:params:rtp-hdrext:ntp-64",
            BareKind::Ntp56 => "urn:ietf:params:rtp-hdrext:ntp-56",
        }
    }

    // Whether this URI names the kind.
    fn has_uri(self, uri: &str) -> bool
        ensures { IsTrue result ↔ (bare_uri self ≡ uri.now) }
    {
        self.uri() == uri
    }

    // The kind whose URI has so many bytes; of the two of NTP that of 64 bits.
    fn as_long(len: usize) -> Option<Self>
        ensures { (kind : Kind) → kind ≢ Ntp56 → length (bare_uri kind) ≡ len →
            result ≡ Some kind }
    {
        match len {
            33 => Some(BareKind::Ntp64),
            43 => Some(BareKind::MixerLevels),
            65 => Some(BareKind::TransportNumber2),
            87 => Some(BareKind::DependencyDescriptor),
            _ => None,
        }
    }

    // The kind that this URI names. Its length leaves one kind, or the two of NTP.
    pub fn from_uri(uri: &str) -> Option<Self>
        ensures found { IfSome result (λ kind. bare_uri kind ≡ uri.now) }
        ensures none { IfNone result ((kind : Kind) → bare_uri kind ≢ uri.now) }
    {
        let kind = BareKind::as_long(uri.len())?;
        if kind.has_uri(uri) {
            return Some(kind);
        }
        if BareKind::Ntp56.has_uri(uri) {
            return Some(BareKind::Ntp56);
        }
        None
    }
}
