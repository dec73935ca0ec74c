//! How long the data of an element are, and whether they are empty.

ghost use Rattle.std.specs.Prelude.{◌≡◌, ◌≤◌, ◌++◌, length, IfSome};
ghost use Rattle.std.specs.Option.{option_map};
ghost use Rattle.rtp_base.specs.Id.{before_padding};
ghost use Rattle.rtp_values.specs.KnownKind.{extension_of_kind};
ghost use Rattle.rtp_values.specs.declared.kind.Extension.{Extension};
ghost use Rattle.rtp_values.specs.declared.kind.Extension.TheVariants as kind;
ghost use Rattle.rtp_values.specs.Spelling.{has_no_data, has_empty_text, spelled_data, bytes_of_number, offset_bytes, of_both, longest};

use super::{AbsCaptureTime, ExtensionValues, GetValues};
use crate::KnownKind;
use rtp_base::{Mid, Rid};

// The length where the value is there.
pub(super) fn len_of<T>(value: &Option<T>, len: usize) -> Option<usize>
    ensures { result ≡ option_map (λ _. len) value.now }
{
    value.is_some().then_some(len)
}

// The length where both values are there.
pub(super) fn len_of_both<A, B>(first: &Option<A>, second: &Option<B>, len: usize) -> Option<usize>
    ensures { result ≡ of_both (λ _ _. len) first.now second.now }
{
    (first.is_some() && second.is_some()).then_some(len)
}

// The length of a capture time, which is followed by its offset where that is known.
pub(super) fn capture_len(time: &Option<AbsCaptureTime>) -> Option<usize>
    ensures { result ≡ option_map
        (λ t. length (bytes_of_number 8 t.capture_time ++ offset_bytes t.clock_offset)) time.now }
{
    match time {
        Some(time) if time.clock_offset.is_some() => Some(16),
        Some(_) => Some(8),
        None => None,
    }
}

// The length of a tag.
pub(super) fn mid_len<V: GetValues>(ev: &V) -> Option<usize>
    ensures length { result ≡ option_map length (spelled_data kind.RtpMid (V.values ev.now)) }
    ensures few { IfSome result (λ len. len ≤ 255) }
{
    let text = ev.mid()?;
    Some(text.len())
}

// The length of a stream id.
pub(super) fn rid_len<V: GetValues>(ev: &V) -> Option<usize>
    ensures length { result ≡ option_map length (spelled_data kind.RtpStreamId (V.values ev.now)) }
    ensures few { IfSome result (λ len. len ≤ 255) }
{
    let text = ev.rid()?;
    Some(text.len())
}

// The length of the id of the stream that is repaired.
pub(super) fn repaired_rid_len<V: GetValues>(ev: &V) -> Option<usize>
    ensures length { result
        ≡ option_map length (spelled_data kind.RepairedRtpStreamId (V.values ev.now)) }
    ensures few { IfSome result (λ len. len ≤ 255) }
{
    let text = ev.repaired_rid()?;
    Some(text.len())
}

// Whether the id is there, and its text is empty.
fn is_empty_rid(rid: &Option<Rid>) -> bool
    ensures empty { result ≡ has_no_data (option_map before_padding rid.now) }
    ensures few { IfSome rid.now (λ id. length (before_padding id) ≤ 16) }
{
    match rid {
        Some(rid) => rid.is_empty(),
        None => false,
    }
}

// Whether the id is there, and its text is empty.
fn is_empty_mid(mid: &Option<Mid>) -> bool
    ensures empty { result ≡ has_no_data (option_map before_padding mid.now) }
    ensures few { IfSome mid.now (λ id. length (before_padding id) ≤ 16) }
{
    match mid {
        Some(mid) => mid.is_empty(),
        None => false,
    }
}

impl ExtensionValues {
    /// Whether a mid, a stream id or a repaired stream id is there and has no characters. Only then
    /// can data of no bytes be written.
    #[tactic(auto, using(crate::proofs::DataLengthLemmas::few_data))]
    pub fn has_empty_text(&self) -> bool
        ensures empty { result ≡ has_empty_text self.now }

        // Only a layer allocation has data of more than 16 bytes.
        ensures few { (kind : Extension) → IfSome (spelled_data kind self.now) (λ bytes.
            length bytes ≤ longest kind) }
    {
        let mid = is_empty_mid(&self.mid);
        let rid = is_empty_rid(&self.rid);
        let rid_repair = is_empty_rid(&self.rid_repair);
        mid || rid || rid_repair
    }
}

impl KnownKind {
    /// Whether [`write_to`](Self::write_to) writes data of no bytes, which only a text can have.
    pub fn has_empty_data(self, ev: &ExtensionValues) -> bool
        ensures { result ≡ has_no_data (spelled_data (extension_of_kind self) ev.now) }
    {
        match self {
            KnownKind::RtpStreamId => is_empty_rid(&ev.rid),
            KnownKind::RepairedRtpStreamId => is_empty_rid(&ev.rid_repair),
            KnownKind::RtpMid => is_empty_mid(&ev.mid),
            _ => false,
        }
    }
}
