//! The receive state of many streams.

ghost use Rattle.std.specs.Prelude.{◌≡◌, ◌≢◌, ◌↔◌, ◌+◌, ◌^◌, ◌<◌, ℕ, [], length, Some, None, IsTrue, IsSome, IfSome, IfNone, IfOk, OnOk, OnErr};
ghost use Rattle.std.specs.Option.{option_copied};
ghost use Rattle.rtp_base.specs.Window.{Numbers, including};
ghost use Rattle.rtp_receive.specs.Receiver.{Holds, IsNumberOf, IsFresh, IsJudged, taken_after, StaysBelowZeroIn};
ghost use Rattle.rtp_receive.specs.Receivers.{receiver_of, state_of, ChangesSource};
ghost use Rattle.rtp_receive.specs.declared.receiver.Verdict.TheVariants.{Refused};
ghost use Rattle.rtp_receive.specs.declared.receiver.ReceiverState.TheVariants.{Start};
ghost use Rattle.rtp_receive.specs.TrueNumbers.{IsTrueNumber};

use super::sources::Sources;
use super::{Receiver, Verdict};
use rtp_base::{SeqNo, Ssrc};
use std::alloc::{AllocError, Global};
use std::marker::Model;

/// The receive state of the streams that share a transport: a [`Receiver`] for each SSRC (RFC 3550,
/// 3; RFC 3711, 3.2.3).
///
/// A source gets its receiver with the first packet that is recorded or received of it, and keeps
/// it until it is forgotten ([`forget`](Self::forget)). The number of receivers has no limit: where
/// packets are not authenticated, a caller may set one of its own ([`len`](Self::len)). A packet of
/// the same source as the one before it is not looked up; what another one costs grows with the
/// logarithm of that number, whoever chooses the SSRCs.
///
/// No source changes what another one's receiver holds. So with the packets 65,535 of source 1, 10
/// of source 2 and 0 of source 1, `receive` takes 65,535, 10 and 65,536.
#[derive(Debug, Drop)]
pub struct Receivers {
    // Of the first packet of each source.
    rollover_count: u64,
    sources: Sources,
}

impl Model for Receivers {
    ghost use Rattle.std.specs.Prelude.{◌^◌, ◌<◌};
    ghost use Rattle.rtp_receive.specs.Receivers.{ReceiverStates};
    ghost use Rattle.rtp_receive.specs.SourcePlaces.{held, ArePlaces};

    ghost Value = { ReceiverStates };

    ghost view = { λ receivers. record {
      rollover_count = receivers.rollover_count;
      by_source = held receivers.sources.places receivers.sources.list.items;
    } };

    ghost invariant = { λ receivers. (receivers.rollover_count < 2 ^ 48)
        × ArePlaces receivers.sources.places receivers.sources.list.items };
}

impl Receivers {
    /// Receivers of no source yet, each of which will be as [`Receiver::new`] makes it and take its
    /// memory from `alloc`.
    pub fn new(alloc: Global) -> Self
        ensures { result ≡ record { rollover_count = 0; by_source = [] } }
    {
        Self::starting_at(alloc, 0)
    }

    /// Receivers of no source yet, each of which will start at this rollover count
    /// ([`Receiver::starting_at`]) and take its memory from `alloc`. Precondition: the count is
    /// below 2^48.
    pub fn starting_at(alloc: Global, rollover_count: u64) -> Self
        requires { rollover_count < 2 ^ 48 }
        ensures { result ≡ record { rollover_count = rollover_count; by_source = [] } }
    {
        Receivers {
            rollover_count,
            sources: Sources::new(alloc),
        }
    }

    /// How many sources have a receiver.
    pub fn len(&self) -> usize
        ensures { result ≡ length self.now.by_source }
    {
        self.sources.places.len()
    }

    /// Whether no source has a receiver.
    pub fn is_empty(&self) -> bool
        ensures { IsTrue result ↔ (self.now.by_source ≡ []) }
    {
        self.len() == 0
    }

    /// The receiver of the source, and `None` where it has none.
    pub fn get(&self, ssrc: Ssrc) -> Option<&Receiver>
        ensures { option_copied result ≡ receiver_of self.now ssrc }
    {
        let place = self.sources.place_of(ssrc)?;
        Some(&self.sources.list[place].1)
    }

    /// Drops the source, as after it said goodbye (RFC 3550, 6.6), and returns its receiver;
    /// `None`, and nothing changes, where it has none. A later packet of the source is the first
    /// one of a new receiver: so a copy of an old packet is taken again.
    pub fn forget(&mut self, ssrc: Ssrc) -> Option<Receiver>
        ensures receiver { result ≡ receiver_of self.old ssrc }
        ensures forgotten { receiver_of self.new ssrc ≡ None }
        ensures same { IfNone result (self.new ≡ self.old) }
        ensures others { (source : ℕ) → source ≢ ssrc →
            receiver_of self.new source ≡ receiver_of self.old source }
        ensures count { self.new.rollover_count ≡ self.old.rollover_count }
        ensures fewer { IfSome result (λ _.
            length self.new.by_source + 1 ≡ length self.old.by_source) }
    {
        self.sources.remove(ssrc)
    }

    /// The extended sequence number of a packet of this source and sequence number: the one nearest
    /// to the highest number taken of the source (RFC 3711, 3.3.1). Where none is taken yet, it is
    /// the one with the rollover count at which receivers start.
    pub fn number_of(&self, ssrc: Ssrc, sequence_number: u16) -> SeqNo
        ensures nearest { (count : ℕ) → (taken : Numbers) →
            Holds (state_of self.now ssrc) count taken →
            IsNumberOf count taken sequence_number result }

        // It is the number that the sender gave the packet, where that is in reach: of the rollover
        // count at which receivers start for the source's first packet, and for each later one less
        // than 32,768 away from the highest of its packets before it, whether these were taken or
        // not.
        ensures true_number { (count : ℕ) → (numbers : Numbers) → (number : ℕ) →
            Holds (state_of self.now ssrc) count numbers →
            IsTrueNumber count numbers sequence_number number → result ≡ number }
    {
        match self.get(ssrc) {
            None => Receiver::starting_at(self.rollover_count).number_of(sequence_number),
            Some(receiver) => receiver.number_of(sequence_number),
        }
    }

    /// Whether the number may be taken of the source: none is taken of it yet, or the number is
    /// above the highest one taken of it, or less than 128 below that and not taken.
    pub fn accepts(&self, ssrc: Ssrc, number: SeqNo) -> bool
        ensures { (count : ℕ) → (taken : Numbers) → Holds (state_of self.now ssrc) count taken →
            (IsTrue result ↔ IsFresh taken number) }
    {
        match self.get(ssrc) {
            None => true,
            Some(receiver) => receiver.accepts(number),
        }
    }

    /// Records that the number is taken of the source, once its packet is known to be authentic. A
    /// number that [`accepts`](Self::accepts) refuses changes nothing in the source's receiver.
    ///
    /// Memory is taken where the source gets its receiver; where it is refused nothing changes. It
    /// is also taken now and then for the hints by which receivers are found; where that is
    /// refused, the call goes on without.
    pub fn record(&mut self, ssrc: Ssrc, number: SeqNo) -> Result<(), AllocError>
        ensures recorded { (count : ℕ) → (taken : Numbers) →
            Holds (state_of self.old ssrc) count taken →
            OnOk result (Holds (state_of self.new ssrc) count (including taken number)) }
        ensures unchanged { (count : ℕ) → (taken : Numbers) →
            Holds (state_of self.old ssrc) count taken → (IsFresh taken number → ⊥) →
            receiver_of self.new ssrc ≡ receiver_of self.old ssrc }
        ensures below_zero { OnOk result
            (StaysBelowZeroIn (state_of self.old ssrc) (state_of self.new ssrc)) }
        ensures source { ChangesSource ssrc result self.old self.new }
    {
        let sources = &mut self.sources;
        if let Some(place) = Sources::find(
            &mut sources.hints,
            &sources.list,
            &sources.places,
            ssrc,
        ) {
            self.sources.list[place].1.record(number);
            return Ok(());
        }
        let mut receiver = Receiver::starting_at(self.rollover_count);
        receiver.record(number);
        self.add(ssrc, receiver)?;
        Ok(())
    }

    /// The verdict on a packet of this source and sequence number: taken, and then recorded,
    /// exactly when its extended sequence number may be taken of the source; refused, and then the
    /// source's receiver holds what it held, where not. It is [`number_of`](Self::number_of),
    /// [`accepts`](Self::accepts) and [`record`](Self::record) in one, where nothing is
    /// authenticated.
    ///
    /// Memory is taken where the source gets its receiver; where it is refused nothing changes. It
    /// is also taken now and then for the hints by which receivers are found; where that is
    /// refused, the call goes on without.
    pub fn receive(&mut self, ssrc: Ssrc, sequence_number: u16) -> Result<Verdict, AllocError>
        ensures verdict { (count : ℕ) → (taken : Numbers) →
            Holds (state_of self.old ssrc) count taken → IfOk result (λ verdict.
            (number : ℕ) × IsNumberOf count taken sequence_number number
            × IsJudged taken number verdict) }
        ensures after { (count : ℕ) → (taken : Numbers) →
            Holds (state_of self.old ssrc) count taken → IfOk result (λ verdict.
            Holds (state_of self.new ssrc) count (taken_after taken verdict)) }

        // The same by the numbers that the sender gave the packets, where those of all packets of
        // the source before this one count.
        ensures true_number { (count : ℕ) → (numbers : Numbers) → (number : ℕ) →
            Holds (state_of self.old ssrc) count numbers →
            IsTrueNumber count numbers sequence_number number →
            IfOk result (IsJudged numbers number) }
        ensures true_numbers { (count : ℕ) → (numbers : Numbers) → (number : ℕ) →
            Holds (state_of self.old ssrc) count numbers →
            IsTrueNumber count numbers sequence_number number →
            OnOk result (Holds (state_of self.new ssrc) count (including numbers number)) }

        ensures unchanged { IfOk result (λ verdict. verdict ≡ Refused →
            IsSome (receiver_of self.old ssrc)
            × (receiver_of self.new ssrc ≡ receiver_of self.old ssrc)) }
        ensures below_zero { OnOk result
            (StaysBelowZeroIn (state_of self.old ssrc) (state_of self.new ssrc)) }
        ensures source { ChangesSource ssrc result self.old self.new }
    {
        let sources = &mut self.sources;
        if let Some(place) = Sources::find(
            &mut sources.hints,
            &sources.list,
            &sources.places,
            ssrc,
        ) {
            return Ok(self.sources.list[place].1.receive(sequence_number));
        }
        let mut added = Receiver::starting_at(self.rollover_count);
        let verdict = added.receive(sequence_number);
        self.add(ssrc, added)?;
        Ok(verdict)
    }

    // Adds a source that has no receiver. Where memory is refused nothing changes.
    fn add(&mut self, ssrc: Ssrc, receiver: Receiver) -> Result<(), AllocError>
        requires { receiver_of self.old ssrc ≡ None }
        ensures added { OnOk result (receiver_of self.new ssrc ≡ Some receiver) }
        ensures others { (source : ℕ) → source ≢ ssrc →
            receiver_of self.new source ≡ receiver_of self.old source }
        ensures count { self.new.rollover_count ≡ self.old.rollover_count }
        ensures refused { OnErr result (self.new ≡ self.old) }
        ensures one_more { OnOk result
            (length self.new.by_source ≡ length self.old.by_source + 1) }
    {
        self.sources.add(ssrc, receiver)?;
        Ok(())
    }
}
