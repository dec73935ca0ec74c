//! A receiver over a whole run of datagrams.

ghost use Rattle.std.specs.Prelude.{◌≡◌, ℕ, List, [], map, Option, None, IsOk, IfOk};
ghost use Rattle.rtp_base.specs.Window.{Numbers};
ghost use Rattle.rtp_receive.specs.Receiver.{Holds, taken_after};
ghost use Rattle.rtp_receive.specs.Verdicts.{PacketId, IsVerdict, TakesOnce};
ghost use Rattle.rtp_receive.specs.TrueNumbers.{AreTrueNumbers, AreTrueVerdicts};
ghost use Rattle.rtp_receive.specs.Sources.{numbers_beside};
ghost use Rattle.rtp_receive.specs.EachSource.{HoldsEach, taken_after_each};
ghost use Rattle.rtp_ext.specs.declared.map.ExtensionMap.{ExtensionMap};
ghost use Rattle.rtp_wire.specs.declared.header.rtp_header.RtpHeader.{RtpHeader};
ghost use Rattle.rtp_wire.specs.PacketIds.{packet_id_in, IsPacketId, ArePacketIds};
ghost use Rattle.rtp_wire.specs.Sending.{AreSent, packet_ids_of};
ghost use Rattle.rtp_wire.specs.Runs.{AreVerdicts, AreVerdictsBySource, OfEachSource, IsRunAlone, TakesEachOnce, IsDecidedBy, IsDecidedBySender};

use crate::packet::RtpPacket;
use rtp_base::Ssrc;
use rtp_ext::ExtensionMap;
use rtp_receive::{Receiver, Receivers, Verdict};
use std::alloc::{AllocError, Global};

/// The verdict on each datagram, in the order in which they came, by a [`Receiver`] for each SSRC
/// ([`Receivers`]): a datagram that begins with no header under the map is unreadable and changes
/// nothing. Nothing is authenticated here.
///
/// The map isn't looked at, since under each map the same datagrams begin with a header, and with
/// one of the same SSRC and sequence number.
///
/// Memory is taken for the list of the verdicts, made at once, and for the receiver of each SSRC,
/// at its first packet; where it is refused nothing is returned. Where it is refused to the hints
/// by which receivers are found, the run goes on without. The values of header extensions take
/// none, and aren't looked at.
pub fn receive_run(
    alloc: Global,
    datagrams: &[Vec<u8>],
    exts: &ExtensionMap,
) -> Result<Vec<Verdict>, AllocError>
    ensures verdicts { IfOk result (λ found.
        AreVerdictsBySource exts.now (map (λ d. d.items) datagrams.now) found.items) }

    // No other map gives other verdicts.
    ensures any_map { (other : ExtensionMap) → IfOk result (λ found.
        AreVerdictsBySource other (map (λ d. d.items) datagrams.now) found.items) }

    // The verdicts on the datagrams of a source are those of a run of them alone, whatever comes
    // between.
    ensures isolated { IfOk result (λ found. OfEachSource exts.now
        (map (λ d. d.items) datagrams.now) found.items (IsRunAlone exts.now)) }
    ensures once { IfOk result (λ found. OfEachSource exts.now
        (map (λ d. d.items) datagrams.now) found.items TakesEachOnce) }

    // The numbers that a sender gave the packets of a source decide alone, where the source's first
    // one is below 65,536, and each later one is less than 32,768 away from the highest before it
    // of the source.
    ensures true_numbers { (numbers : List ℕ) → IfOk result (λ found. OfEachSource exts.now
        (map (λ d. d.items) datagrams.now) found.items (IsDecidedBy numbers)) }

    // What a sender's headers were written as is read, whatever the sender's map is and whatever is
    // lost, repeated or reordered on the way, and the sender's numbers decide: among the datagrams
    // of other sources, and alone.
    ensures sent_among { (senders : ExtensionMap) → (headers : List RtpHeader) →
        (numbers : List ℕ) → IfOk result (λ found. OfEachSource exts.now
        (map (λ d. d.items) datagrams.now) found.items
        (IsDecidedBySender senders headers numbers)) }
    ensures sent { (senders : ExtensionMap) → (headers : List RtpHeader) → (numbers : List ℕ) →
        AreSent senders headers numbers (map (λ d. d.items) datagrams.now) →
        IfOk result (λ found. AreTrueVerdicts (packet_ids_of headers) numbers found.items) }
    ensures nothing { datagrams.now ≡ [] → IsOk result }
{
    let mut verdicts = Vec::with_capacity(alloc, datagrams.len())?;
    let mut receivers = Receivers::new(alloc);
    for datagram in datagrams {
        let verdict = verdict_by_source(&mut receivers, packet_id(datagram))?;
        verdicts.push_reserved(verdict);
    }
    Ok(verdicts)
}

/// The verdict on each datagram, in the order in which they came, by one [`Receiver`] for all of
/// them, whatever their SSRC: a datagram that begins with no header under the map is unreadable and
/// changes nothing. It is meant for the datagrams of one stream, and nothing is authenticated here.
/// The map isn't looked at, as by [`receive_run`].
///
/// Memory is taken for the list of the verdicts alone, made at once; where it is refused nothing is
/// returned.
pub fn receive_run_one(
    alloc: Global,
    datagrams: &[Vec<u8>],
    exts: &ExtensionMap,
) -> Result<Vec<Verdict>, AllocError>
    ensures verdicts { IfOk result (λ found.
        AreVerdicts exts.now (map (λ d. d.items) datagrams.now) found.items) }

    // No other map gives other verdicts.
    ensures any_map { (other : ExtensionMap) → IfOk result (λ found.
        AreVerdicts other (map (λ d. d.items) datagrams.now) found.items) }
    ensures once { IfOk result (λ found. TakesOnce found.items) }

    // The numbers that the sender gave its packets decide alone, where the first one is below
    // 65,536, and each later one is less than 32,768 away from the highest before it.
    ensures true_numbers { (packet_ids : List (Option PacketId)) → (numbers : List ℕ) →
        ArePacketIds exts.now (map (λ d. d.items) datagrams.now) packet_ids →
        AreTrueNumbers 0 packet_ids numbers →
        IfOk result (λ found. AreTrueVerdicts packet_ids numbers found.items) }

    // What a sender's headers were written as is read, whatever the sender's map is and whatever is
    // lost, repeated or reordered on the way, and the sender's numbers decide.
    ensures sent { (senders : ExtensionMap) → (headers : List RtpHeader) → (numbers : List ℕ) →
        AreSent senders headers numbers (map (λ d. d.items) datagrams.now) →
        IfOk result (λ found. AreTrueVerdicts (packet_ids_of headers) numbers found.items) }
    ensures nothing { datagrams.now ≡ [] → IsOk result }
{
    let mut verdicts = Vec::with_capacity(alloc, datagrams.len())?;
    let mut receiver = Receiver::new();
    for datagram in datagrams {
        verdicts.push_reserved(verdict_on(&mut receiver, packet_id(datagram)));
    }
    Ok(verdicts)
}

// The SSRC and the sequence number of a datagram, which are the same under each map, and `None`
// where it begins with no header under any.
fn packet_id(datagram: &[u8]) -> Option<(Ssrc, u16)>
    ensures { (exts : ExtensionMap) → IsPacketId exts datagram.now (packet_id_in result) }
{
    match RtpPacket::read(datagram) {
        Ok((packet, true)) => Some((packet.ssrc(), packet.sequence_number())),
        _ => None,
    }
}

// The verdict on a packet, whatever its SSRC is.
fn verdict_on(receiver: &mut Receiver, packet_id: Option<(Ssrc, u16)>) -> Verdict
    ensures verdict { (count : ℕ) → (taken : Numbers) → Holds receiver.old count taken →
        IsVerdict count taken (packet_id_in packet_id) result }
    ensures after { (count : ℕ) → (taken : Numbers) → Holds receiver.old count taken →
        Holds receiver.new count (taken_after taken result) }
{
    match packet_id {
        Some((_, sequence_number)) => receiver.receive(sequence_number),
        None => Verdict::Unreadable,
    }
}

// The verdict on a packet by the receiver of its source, whose SSRC it has.
fn verdict_by_source(
    receivers: &mut Receivers,
    packet_id: Option<(Ssrc, u16)>,
) -> Result<Verdict, AllocError>
    ensures verdict { (count : ℕ) → (taken : ℕ → Numbers) → HoldsEach receivers.old count taken →
        let id = packet_id_in packet_id in
        IfOk result (IsVerdict count (numbers_beside taken id) id) }
    ensures after { (count : ℕ) → (taken : ℕ → Numbers) → HoldsEach receivers.old count taken →
        IfOk result (λ verdict.
        HoldsEach receivers.new count (taken_after_each taken (packet_id_in packet_id) verdict)) }
    ensures succeeds { packet_id ≡ None → IsOk result }
    ensures same { packet_id ≡ None → receivers.new ≡ receivers.old }
{
    match packet_id {
        Some((ssrc, sequence_number)) => receivers.receive(ssrc, sequence_number),
        None => Ok(Verdict::Unreadable),
    }
}
