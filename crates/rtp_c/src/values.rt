//! The values of a block's elements.

ghost use Rattle.std.specs.Prelude.{◌≡◌, ◌≢◌, ◌↔◌, ◌⊎◌, ◌-◌, ◌<◌, ◌++◌, List, length, replicate, Some};
ghost use Rattle.rtp_base.specs.Flag.{bit};
ghost use Rattle.rtp_base.specs.Id.{before_padding};
ghost use Rattle.rtp_ext.specs.declared.form.ExtensionsForm.{ExtensionsForm};
ghost use Rattle.rtp_ext.specs.BlockValues.{AreValues};
ghost use Rattle.rtp_ext.specs.Elements.{Element, AreElements};
ghost use Rattle.rtp_values.specs.declared.value.values.ExtensionValues.{ExtensionValues};
ghost use Rattle.rtp_values.specs.Values.{no_values};
ghost use Rattle.rtp_c.specs.Status.{ok, bad_field};
ghost use Rattle.rtp_c.specs.Told.{ended_text, IsToldOr};
ghost use Rattle.rtp_c.specs.PacketView.{form_number};
ghost use Rattle.rtp_c.specs.ValuesView.{IsViewOfValues, IsReadAs};
ghost use Rattle.rtp_c.specs.StoredMap.{numbered_slots};

use super::kinds::StoredMap;
use super::packet::form_of;
use super::status::{BAD_FIELD, OK};
use rtp_base::{Mid, Rid, put};
use rtp_ext::{ExtensionsForm, read_values};

/// A time as a number of ticks of a clock: `rtpw_time` in C, 16 bytes. It is `ticks / hertz`
/// seconds.
#[repr(C)]
#[derive(Clone, Copy, Default)]
pub struct Time {
    /// How many ticks of the clock it is.
    pub ticks: u64,
    /// How many ticks the clock has in a second: 100 as read.
    pub hertz: u32,
}

/// The values of a block's elements: `rtpw_values` in C, 136 bytes. A value that is absent is 0. A
/// text is ASCII letters, digits and underscores, and zeros end it.
#[repr(C)]
#[derive(Clone, Copy, Default)]
pub struct ValuesView {
    /// When the packet left its sender, in microseconds modulo 64 seconds.
    pub send_time: u64,
    /// When the frame was captured, as an NTP timestamp with 32 fractional bits.
    pub capture_time: u64,
    /// How far the capturer's clock is ahead of the sender's, with 32 fractional bits.
    pub capture_offset: i64,
    /// The least time for which the receiver may hold the frame before it shows it.
    pub playout_delay_min: Time,
    /// The greatest such time.
    pub playout_delay_max: Time,
    /// How long after its timestamp the packet was sent, in ticks of the stream's clock.
    pub transmission_offset: u32,
    /// The frame marking.
    pub frame_marking: u32,
    /// The packet's number on its transport.
    pub transport_number: u16,
    /// How the receiver has to turn the picture, in degrees counter-clockwise: 0, 90, 180 or 270.
    pub video_orientation: u16,
    /// The video timing: when the frame's encoding began, in milliseconds after its capture.
    pub encode_start: u16,
    /// When its encoding ended.
    pub encode_finish: u16,
    /// When its last packet was made.
    pub packetize_complete: u16,
    /// When its last packet left the pacer.
    pub last_left_pacer: u16,
    /// Why the times were sent: bit 0 for a timer, bit 1 for a large frame.
    pub timing_flags: u8,
    /// What the video shows: 0 is unspecified, 1 a screen.
    pub video_content_type: u8,
    /// The audio level in decibels relative to the overload point, -127 to 0.
    pub audio_level: i8,
    /// Whether the packet's audio has voice: 0 or 1.
    pub voice_activity: u8,
    /// The media section's identification tag (RFC 9143), of up to 16 characters.
    pub mid: [u8; 17],
    /// The RTP stream id (RFC 8852), of up to 8 characters.
    pub rid: [u8; 9],
    /// The id of the stream that this one repairs (RFC 8852), of up to 8 characters.
    pub repaired_rid: [u8; 9],
    /// Whether the send time is there: 0 or 1, and so for each other value.
    pub has_send_time: u8,
    pub has_capture_time: u8,
    pub has_capture_offset: u8,
    pub has_transmission_offset: u8,
    pub has_frame_marking: u8,
    pub has_transport_number: u8,
    pub has_video_orientation: u8,
    pub has_video_content_type: u8,
    pub has_audio_level: u8,
    pub has_voice_activity: u8,
    pub has_playout_delay_min: u8,
    pub has_playout_delay_max: u8,
    /// Whether the four times of the video timing and its flags are there.
    pub has_video_timing: u8,
    pub has_mid: u8,
    pub has_rid: u8,
    pub has_repaired_rid: u8,
    /// Whether there is a layer allocation, which `rtpw_layers` holds.
    pub has_layers: u8,
}

// A flag as a number.
pub fn flag_number(is_set: bool) -> u8
    ensures { result ≡ bit is_set }
{
    if is_set { 1 } else { 0 }
}

// The text of a mid, and then zeros, of which there is at least one.
#[inline(always)]
pub fn ended_mid(mid: Mid) -> [u8; 17]
    ensures { result ≡ ended_text 16 (before_padding mid) }
{
    let mut bytes = [0; 17];
    put(&mut bytes, 0, &mid.zero_padded());
    bytes
}

// The text of a stream id, and then zeros, of which there is at least one.
#[inline(always)]
pub fn ended_rid(rid: Rid) -> [u8; 9]
    ensures { result ≡ ended_text 8 (before_padding rid) }
{
    let mut bytes = [0; 9];
    put(&mut bytes, 0, &rid.zero_padded());
    bytes
}

// Whether the value is there, as 1 or 0, and the value: of one that is absent the default.
pub fn told<T: Copy + Default>(value: Option<T>) -> (u8, T)
    ensures { IsToldOr T.is_default result.0 result.1 value }
{
    match value {
        Some(value) => (1, value),
        None => (0, T::default()),
    }
}

// Puts what C is told of the values that the elements of a block's body give under the map.
pub fn put_values(body: &[u8], form: ExtensionsForm, map: &StoredMap, view: &mut ValuesView)
    ensures { (elements : List Element) → AreElements form body.now elements →
        (values : ExtensionValues)
        × AreValues (numbered_slots map.now.kind) elements no_values values
        × IsViewOfValues values view.new }
{
    put_no_values(view);
    // Nothing is refused to values that take no memory.
    let _ = read_values(map, (), body, form, view);
}

// Puts that no value is there.
pub fn put_no_values(view: &mut ValuesView)
    ensures { IsViewOfValues no_values view.new }
{
    *view = ValuesView::default();
}

/// Reads the values that the elements of a block's body give under the map (RFC 8285, 4.2 and 4.3).
/// `OK`; `BAD_FIELD` where the form is neither of the two, and then nothing is written.
#[unsafe(no_mangle)]
pub extern "C" fn rtpw_values_read(
    body: &[u8],
    form: u8,
    map: &StoredMap,
    values: &mut ValuesView,
) -> i32
    ensures read { result ≡ ok → (f : ExtensionsForm) × (form_number (Some f) ≡ form)
        × IsReadAs f map.now.kind body.now values.new }
    ensures bad_field { (result ≡ bad_field) ↔
        ((f : ExtensionsForm) → form_number (Some f) ≢ form) }
    ensures statuses { (result ≡ ok) ⊎ (result ≡ bad_field) }
    ensures unchanged { result ≢ ok → values.new ≡ values.old }
{
    let Some(form) = form_of(form) else {
        return BAD_FIELD;
    };
    put_values(body, form, map, values);
    OK
}
