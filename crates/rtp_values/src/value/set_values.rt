//! What values are read into.

use super::{AbsCaptureTime, ExtensionValues, VideoOrientation, VideoTiming};
use rtp_base::{MediaTime, Mid, Rid};
use rtp_vla::vla;
use std::alloc::{AllocError, Global};

/// What the values of a header's elements are read into, as [`ExtensionValues`]: each call sets the
/// fields of one kind, and leaves all others as they are.
pub trait SetValues {
    ghost use Rattle.std.specs.Prelude.{◌≡◌, ◌≤◌, length, Some, IfOk, IfSome, IfNone, IsErr};
    ghost use Rattle.rtp_vla.specs.Allocation.{Allocation, Means};
    ghost use Rattle.rtp_values.specs.HeaderValues.{HeaderValues};

    /// What the lists of a layer allocation are taken from, where they are held in memory.
    type Memory: Copy;

    // Whether these are the values that it shows.
    ghost shows: { Self → HeaderValues → Type 0 };

    // Whether memory may be refused to it.
    ghost may_be_refused: { Type 0 };

    /// Sets the absolute send time, in microseconds.
    fn set_send_time(&mut self, micros: u64)
        ensures { (v : HeaderValues) → shows self.old v →
            shows self.new (record v { abs_send_time = Some micros }) };

    /// Sets the absolute capture time.
    fn set_capture_time(&mut self, time: AbsCaptureTime)
        ensures { (v : HeaderValues) → shows self.old v →
            shows self.new (record v { abs_capture_time = Some time }) };

    /// Sets the audio level, and whether the audio has voice.
    fn set_audio_level(&mut self, level: i8, voice: bool)
        ensures { (v : HeaderValues) → shows self.old v → shows self.new (record v {
          audio_level = Some level;
          voice_activity = Some voice;
        }) };

    /// Sets the transmission time offset, in ticks of the stream's clock.
    fn set_transmission_offset(&mut self, ticks: u32)
        ensures { (v : HeaderValues) → shows self.old v →
            shows self.new (record v { tx_time_offs = Some ticks }) };

    /// Sets how the picture is to be turned.
    fn set_video_orientation(&mut self, orientation: VideoOrientation)
        ensures { (v : HeaderValues) → shows self.old v →
            shows self.new (record v { video_orientation = Some orientation }) };

    /// Sets the packet's number on its transport.
    fn set_transport_number(&mut self, number: u16)
        ensures { (v : HeaderValues) → shows self.old v →
            shows self.new (record v { transport_cc = Some number }) };

    /// Sets the least and the greatest playout delay.
    fn set_playout_delay(&mut self, min: MediaTime, max: MediaTime)
        ensures { (v : HeaderValues) → shows self.old v → shows self.new (record v {
          play_delay_min = Some min;
          play_delay_max = Some max;
        }) };

    /// Sets what the video shows.
    fn set_video_content_type(&mut self, content: u8)
        ensures { (v : HeaderValues) → shows self.old v →
            shows self.new (record v { video_content_type = Some content }) };

    /// Sets the video timing.
    fn set_video_timing(&mut self, timing: VideoTiming)
        ensures { (v : HeaderValues) → shows self.old v →
            shows self.new (record v { video_timing = Some timing }) };

    /// Sets the RTP stream id.
    fn set_rid(&mut self, rid: Rid)
        ensures { (v : HeaderValues) → shows self.old v →
            shows self.new (record v { rid = Some rid }) };

    /// Sets the id of the stream that is repaired.
    fn set_repaired_rid(&mut self, rid: Rid)
        ensures { (v : HeaderValues) → shows self.old v →
            shows self.new (record v { rid_repair = Some rid }) };

    /// Sets the media section's identification tag.
    fn set_mid(&mut self, mid: Mid)
        ensures { (v : HeaderValues) → shows self.old v →
            shows self.new (record v { mid = Some mid }) };

    /// Sets the four bytes of a frame marking.
    fn set_frame_marking(&mut self, marking: u32)
        ensures { (v : HeaderValues) → shows self.old v →
            shows self.new (record v { frame_mark = Some marking }) };

    /// Sets the layer allocation that the bytes mean: `Some` exactly when they mean one, and `None`
    /// changes nothing. Where memory is refused nothing is changed.
    fn read_layers(&mut self, memory: Self::Memory, buf: &[u8]) -> Result<Option<()>, AllocError>
        ensures found { IfOk result (λ answer. IfSome answer (λ _. (a : Allocation) × Means buf.now a
            × ((v : HeaderValues) → shows self.old v →
            shows self.new (record v { video_layers_allocation = Some a })))) }
        ensures none { IfOk result (λ answer. IfNone answer ((a : Allocation) → Means buf.now a → ⊥)) }
        ensures unchanged { IfOk result (λ answer. IfNone answer (self.new ≡ self.old)) }
        ensures refused { IsErr result → self.new ≡ self.old }
        ensures memory { IsErr result → may_be_refused × (2 ≤ length buf.now) };
}

impl SetValues for ExtensionValues {
    type Memory = Global;

    ghost use Rattle.std.specs.Prelude.{◌≡◌};

    ghost shows = { λ values shown. values ≡ shown };

    ghost may_be_refused = { Unit {0} };

    #[inline(always)]
    fn set_send_time(&mut self, micros: u64) {
        self.abs_send_time = Some(micros);
    }

    #[inline(always)]
    fn set_capture_time(&mut self, time: AbsCaptureTime) {
        self.abs_capture_time = Some(time);
    }

    #[inline(always)]
    fn set_audio_level(&mut self, level: i8, voice: bool) {
        self.audio_level = Some(level);
        self.voice_activity = Some(voice);
    }

    #[inline(always)]
    fn set_transmission_offset(&mut self, ticks: u32) {
        self.tx_time_offs = Some(ticks);
    }

    #[inline(always)]
    fn set_video_orientation(&mut self, orientation: VideoOrientation) {
        self.video_orientation = Some(orientation);
    }

    #[inline(always)]
    fn set_transport_number(&mut self, number: u16) {
        self.transport_cc = Some(number);
    }

    #[inline(always)]
    fn set_playout_delay(&mut self, min: MediaTime, max: MediaTime) {
        self.play_delay_min = Some(min);
        self.play_delay_max = Some(max);
    }

    #[inline(always)]
    fn set_video_content_type(&mut self, content: u8) {
        self.video_content_type = Some(content);
    }

    #[inline(always)]
    fn set_video_timing(&mut self, timing: VideoTiming) {
        self.video_timing = Some(timing);
    }

    #[inline(always)]
    fn set_rid(&mut self, rid: Rid) {
        self.rid = Some(rid);
    }

    #[inline(always)]
    fn set_repaired_rid(&mut self, rid: Rid) {
        self.rid_repair = Some(rid);
    }

    #[inline(always)]
    fn set_mid(&mut self, mid: Mid) {
        self.mid = Some(mid);
    }

    #[inline(always)]
    fn set_frame_marking(&mut self, marking: u32) {
        self.frame_mark = Some(marking);
    }

    // It stays out of line, since the calls in it would otherwise make every other kind save
    // registers.
    #[inline(never)]
    fn read_layers(&mut self, memory: Global, buf: &[u8]) -> Result<Option<()>, AllocError> {
        let Some(allocation) = vla::parse(memory, buf)? else {
            return Ok(None);
        };
        self.video_layers_allocation = Some(allocation);
        Ok(Some(()))
    }
}
