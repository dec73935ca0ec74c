//! Receivers of packets, authenticated and not.

ghost use Rattle.std.specs.Prelude.{◌≡◌, ◌≢◌, ◌+◌, ◌^◌, ◌<◌, ◌≤◌, ◌⊎◌, ◌*◌, ◌%◌, ℕ, length, true, false, Ok, None, IsSome, IfSome, IfNone, IsOk, IfOk, OnErr, List};
ghost use Rattle.rtp_base.specs.Window.{Numbers, IsGreatest, including};
ghost use Rattle.rtp_wire.specs.NotAHeader.{IsNoPacket};
ghost use Rattle.rtp_wire.specs.Packet.{PacketParts, IsPacket};
ghost use Rattle.rtp_wire.specs.PartsOf.{parts_of};
ghost use Rattle.rtp_receive.specs.Receiver.{Holds, IsNumberOf, IsFresh, IsJudged, taken_after};
ghost use Rattle.rtp_receive.specs.Receivers.{receiver_of, state_of};
ghost use Rattle.rtp_receive.specs.TrueNumbers.{IsTrueNumber, AreTrueNumbers, AreTrueVerdicts};
ghost use Rattle.rtp_wire.specs.Sending.{packet_ids_of};
ghost use Rattle.rtp_receive.specs.declared.receiver.Verdict.TheVariants.{Taken, Unreadable};

use rtp_base::{SeqNo, Ssrc};
use rtp_wire::{Receiver, Receivers, RtpHeader, RtpPacket, Verdict};
use std::alloc::{AllocError, Global};

/// Returns the number of a packet of this sequence number that is new and authentic, and records
/// it. For every other packet returns `None`, and the receiver holds the same numbers (RFC 3711,
/// 3.3).
pub fn receive_authentic<F: FnOnce(SeqNo) -> bool>(
    receiver: &mut Receiver,
    sequence_number: u16,
    is_authentic: F,
) -> Option<SeqNo>
    requires { F.IsAlwaysCallable is_authentic }
    ensures number { (count : ℕ) → (taken : Numbers) →
        Holds receiver.old count taken → IfSome result (λ number.
        IsNumberOf count taken sequence_number number × IsFresh taken number) }
    ensures authentic { IfSome result (λ number. F.post is_authentic number true) }
    ensures recorded { (count : ℕ) → (taken : Numbers) →
        Holds receiver.old count taken → IfSome result (λ number.
        Holds receiver.new count (including taken number)) }
    ensures cause { (count : ℕ) → (taken : Numbers) →
        Holds receiver.old count taken → IfNone result (
        (number : ℕ) × IsNumberOf count taken sequence_number number
        × ((IsFresh taken number → ⊥) ⊎ F.post is_authentic number false)) }
    ensures same { (count : ℕ) → (taken : Numbers) →
        Holds receiver.old count taken → IfNone result (
        Holds receiver.new count taken) }

    // The number is the one that the sender gave the packet, where that has the rollover count at
    // which the receiver starts for the first packet, and is less than 32,768 away from the highest
    // one before it for each later one.
    ensures true_number { (count : ℕ) → (numbers : Numbers) → (number : ℕ) →
        Holds receiver.old count numbers →
        IsTrueNumber count numbers sequence_number number →
        IfSome result (λ n. n ≡ number) }
    ensures unchanged { IfNone result (receiver.new ≡ receiver.old) }
{
    let number = receiver.number_of(sequence_number);
    if !receiver.accepts(number) || !is_authentic(number) {
        return None;
    }
    receiver.record(number);
    Some(number)
}

/// The verdict on each header of one stream, in the order in which they came: by the numbers that
/// the sender gave its packets, whatever is lost, repeated or reordered on the way, as long as the
/// first is below 65,536 and each later one is less than 32,768 away from the highest one before it
/// (RFC 3711, 3.3.1).
pub fn receive_each(alloc: Global, headers: &[RtpHeader]) -> Result<Vec<Verdict>, AllocError>
    ensures { (numbers : List ℕ) → AreTrueNumbers 0 (packet_ids_of headers.now) numbers →
        IfOk result (λ found. AreTrueVerdicts (packet_ids_of headers.now) numbers found.items) }
{
    let mut verdicts = Vec::with_capacity(alloc, headers.len())?;
    let mut receiver = Receiver::new();
    for header in headers {
        verdicts.push_reserved(receiver.receive(header.sequence_number));
    }
    Ok(verdicts)
}

/// The verdict on a datagram of a transport that many sources share. A packet's header extensions
/// aren't looked at, nor is the form of its block: memory is taken for a source without a receiver
/// alone, so a packet of any other is judged whatever memory is left.
pub fn receive_datagram(receivers: &mut Receivers, datagram: &[u8]) -> Result<Verdict, AllocError>
    ensures verdict { (parts : PacketParts) → IsPacket datagram.now parts →
        (count : ℕ) → (taken : Numbers) → Holds (state_of receivers.old parts.ssrc) count taken →
        IfOk result (λ verdict. (number : ℕ)
        × IsNumberOf count taken parts.sequence_number number × IsJudged taken number verdict) }
    ensures unreadable { IsNoPacket datagram.now → result ≡ Ok Unreadable }
    ensures same { IsNoPacket datagram.now → receivers.new ≡ receivers.old }
    ensures refused { OnErr result (receivers.new ≡ receivers.old) }
    ensures succeeds { (parts : PacketParts) → IsPacket datagram.now parts →
        IsSome (receiver_of receivers.old parts.ssrc) → IsOk result }
{
    let Ok(packet) = RtpPacket::parse(datagram) else {
        return Ok(Verdict::Unreadable);
    };
    receivers.receive(packet.ssrc(), packet.sequence_number())
}

/// The verdicts on the first packets of two sources that share a transport. Both are taken, each by
/// its own sequence number, whatever that of the other source is.
pub fn receive_first_of_two(
    alloc: Global,
    one: &RtpPacket<'_>,
    other: &RtpPacket<'_>,
) -> Result<(Verdict, Verdict), AllocError>
    requires { (parts_of other.now).ssrc ≢ (parts_of one.now).ssrc }
    ensures one { IfOk result (λ verdicts.
        verdicts.0 ≡ Taken ((parts_of one.now).sequence_number)) }
    ensures other { IfOk result (λ verdicts.
        verdicts.1 ≡ Taken ((parts_of other.now).sequence_number)) }
{
    let mut receivers = Receivers::new(alloc);
    let first = receivers.receive(one.ssrc(), one.sequence_number())?;
    let second = receivers.receive(other.ssrc(), other.sequence_number())?;
    Ok((first, second))
}

/// The verdict on a packet of this source and sequence number, of an unauthenticated transport
/// whose number of sources is limited: `None`, and nothing changes, where the source is new and
/// there are as many sources as the limit. Otherwise it is that of [`Receivers::receive`].
pub fn receive_limited(
    receivers: &mut Receivers,
    ssrc: Ssrc,
    sequence_number: u16,
    limit: usize,
) -> Result<Option<Verdict>, AllocError>
    requires { length receivers.old.by_source ≤ limit }
    ensures limited { length receivers.new.by_source ≤ limit }
    ensures cause { IfOk result (λ verdict. IfNone verdict
        ((limit ≤ length receivers.old.by_source)
        × (receiver_of receivers.old ssrc ≡ None))) }
    ensures same { IfOk result (λ verdict. IfNone verdict (receivers.new ≡ receivers.old)) }
    ensures verdict { (count : ℕ) → (taken : Numbers) →
        Holds (state_of receivers.old ssrc) count taken →
        IfOk result (λ verdict. IfSome verdict (λ v. (number : ℕ)
        × IsNumberOf count taken sequence_number number × IsJudged taken number v)) }
    ensures after { (count : ℕ) → (taken : Numbers) →
        Holds (state_of receivers.old ssrc) count taken →
        IfOk result (λ verdict. IfSome verdict (λ v.
        Holds (state_of receivers.new ssrc) count (taken_after taken v))) }
    ensures others { (source : ℕ) → source ≢ ssrc →
        receiver_of receivers.new source ≡ receiver_of receivers.old source }
    ensures refused { OnErr result (receivers.new ≡ receivers.old) }
{
    if receivers.len() >= limit && receivers.get(ssrc).is_none() {
        return Ok(None);
    }
    Ok(Some(receivers.receive(ssrc, sequence_number)?))
}

/// The verdict on a first packet whose number is 65,535, the greatest that its sender may begin
/// with: taken.
pub fn receive_greatest_first() -> Verdict
    ensures { result ≡ Taken 65535 }
{
    let mut receiver = Receiver::new();
    receiver.receive(65535)
}

/// The verdict on the first packet of a receiver that starts at this rollover count: taken, by the
/// number of that count that ends in the sequence number.
pub fn receive_first_at(rollover_count: u64, sequence_number: u16) -> Verdict
    requires { rollover_count < 2 ^ 48 }
    ensures { result ≡ Taken (65536 * rollover_count + sequence_number) }
{
    let mut receiver = Receiver::starting_at(rollover_count);
    receiver.receive(sequence_number)
}

/// The verdict on the packet that was sent before the first one that arrived, by the sequence
/// numbers of both, where the rollover count is 1: taken by its true number, whatever the sequence
/// number of the first one is.
pub fn receive_one_before_the_first(first: u16, before: u16) -> Verdict
    requires { (before + 1) % 65536 ≡ first }
    ensures { result ≡ Taken (65535 + first) }
{
    let mut receiver = Receiver::starting_at(1);
    receiver.receive(first);
    receiver.receive(before)
}

/// The verdict on a packet that is 32,767 after the highest before it, the most that it may be:
/// taken by the number that the sender gave it.
pub fn receive_after_longest_jump(receiver: &mut Receiver, sequence_number: u16) -> Verdict
    ensures { (count : ℕ) → (numbers : Numbers) → (highest : ℕ) →
        Holds receiver.old count numbers →
        IsGreatest numbers highest → highest + 32767 < 2 ^ 64 →
        (highest + 32767) % 65536 ≡ sequence_number →
        result ≡ Taken (highest + 32767) }
{
    receiver.receive(sequence_number)
}

/// Records a number of a source that has a receiver: no memory is taken, so none is refused.
pub fn record_of_known_source(
    receivers: &mut Receivers,
    ssrc: Ssrc,
    number: SeqNo,
) -> Result<(), AllocError>
    requires { IsSome (receiver_of receivers.old ssrc) }
    ensures { IsOk result }
{
    receivers.record(ssrc, number)
}
