//! A forwarder of packets.

ghost use Rattle.std.specs.Prelude.{◌≡◌, ◌↔◌, List, IsTrue, IfSome, All};
ghost use Rattle.std.specs.Bool.{OnTrue, OnFalse};
ghost use Rattle.rtp_ext.specs.ExtensionMap.{Slots};
ghost use Rattle.rtp_ext.specs.Elements.{Element};
ghost use Rattle.rtp_ext.specs.ElementsInPlace.{CanRenumber};
ghost use Rattle.rtp_ext.specs.NewIds.{new_id, CarriesExtensions};
ghost use Rattle.rtp_uses.specs.Forwarding.{IsForwarded};
ghost use Rattle.rtp_wire.specs.PacketElements.{AreElementsOf};
ghost use Rattle.rtp_wire.specs.PartsOf.{parts_in, buffer_of};

use rtp_base::{SeqNo, Ssrc};
use rtp_wire::{NewIds, RtpPacketMut};

/// Sends a packet on in another stream, where it lies: it gets this SSRC and number, and each of
/// its elements the id that the receiver's map has for its extension. An element that the receiver
/// has no id for becomes padding. Returns `false`, and changes nothing, where the form of its block
/// can't carry one of these ids.
pub fn forward(packet: &mut RtpPacketMut<'_>, ssrc: Ssrc, number: SeqNo, ids: &NewIds) -> bool
    ensures forwarded { (from to : Slots) → CarriesExtensions from to ids.now → OnTrue result
        (IsForwarded from to ssrc number (parts_in packet.old) (parts_in packet.new)) }
    ensures unchanged { OnFalse result ((buffer_of packet.new).now ≡ (buffer_of packet.old).now) }
    ensures answer { (elements : List Element) →
        AreElementsOf (parts_in packet.old).block elements →
        IsTrue result ↔ IfSome (parts_in packet.old).block (λ block.
        All (CanRenumber block.0 (new_id ids.now)) elements) }
{
    if !packet.renumber(ids) {
        return false;
    }
    packet.set_sequence_number(number.as_u16());
    packet.set_ssrc(ssrc);
    true
}
