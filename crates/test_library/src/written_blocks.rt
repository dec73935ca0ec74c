//! The elements that maps write.

ghost use Rattle.std.specs.Prelude.{◌≡◌, ◌⊎◌};
ghost use Rattle.rtp_ext.specs.declared.form.ExtensionsForm.TheVariants.{TwoByte};
ghost use Rattle.rtp_ext.specs.WrittenBlock.{form_of};

use crate::checks::{are_values, bytes_of, holds, is_in_front_of_ones, same};
use crate::fixtures::{captured, full, level, one, sent, two};
use ExtensionsForm::{OneByte, TwoByte};
use rtp_ext::{Extension, ExtensionMap, ExtensionValues, ExtensionsForm};
use rtp_values::KnownKind;
use std::alloc::Global;
use std::process::Abort;

// What is written into a buffer of ones, and three bytes after it.
pub(crate) fn written(
    rt: &impl Abort,
    alloc: Global,
    map: &ExtensionMap,
    ev: &ExtensionValues,
    form: ExtensionsForm,
) -> Vec<u8>
    requires { (form ≡ form_of map.now ev.now) ⊎ (form ≡ TwoByte) }
{
    let len = map.wire_len(ev, form);
    let mut buf = vec![in alloc; 255u8; len + 3].expect(rt, "memory");
    let end = map.write_to(&mut buf, ev, form);
    same(rt, "the end", end, len);
    buf
}

// The elements need this form, and in it they are these.
pub(crate) fn check(
    rt: &impl Abort,
    alloc: Global,
    map: ExtensionMap,
    ev: ExtensionValues,
    form: ExtensionsForm,
    text: &str,
) {
    holds(rt, text, map.form(&ev) == form);
    let buf = written(rt, alloc, &map, &ev, map.form(&ev));
    is_in_front_of_ones(rt, text, &buf, &bytes_of(rt, alloc, text));
}

// The values with what the elements say.
fn read(
    rt: &impl Abort,
    alloc: Global,
    map: ExtensionMap,
    text: &str,
    mut values: ExtensionValues,
) -> ExtensionValues {
    let bytes = bytes_of(rt, alloc, text);
    map.parse(alloc, &bytes, ExtensionsForm::OneByte, &mut values)
        .expect(rt, "memory");
    values
}

// The element of a kind under an id, of the values with every field set; and the values with what
// is read back of it.
fn check_kind(
    rt: &impl Abort,
    alloc: Global,
    id: u8,
    kind: KnownKind,
    text: &str,
    values: ExtensionValues,
) -> ExtensionValues {
    let map = one(id, Extension::from(kind));
    check(rt, alloc, map, full(), OneByte, text);
    read(rt, alloc, one(id, Extension::from(kind)), text, values)
}

// A kind under an id of its own, and its element of the values with every field set.
const KINDS: [(u8, KnownKind, &str); 13] = [
    (1, KnownKind::AudioLevel, "10ab"),
    (2, KnownKind::PlayoutDelay, "220640c8"),
    (3, KnownKind::TransportSequenceNumber, "310102"),
    (4, KnownKind::RtpMid, "42615f62"),
    (
        5,
        KnownKind::AbsoluteCaptureTime,
        "5f0102030405060708ffffffffffffffff",
    ),
    (7, KnownKind::VideoTiming, "7c01000200030004000500000000"),
    (8, KnownKind::VideoContentType, "8001"),
    (9, KnownKind::FrameMarking, "9300000001"),
    (10, KnownKind::RtpStreamId, "a16869"),
    (11, KnownKind::RepairedRtpStreamId, "b16c6f"),
    (12, KnownKind::AbsoluteSendTime, "c2a00000"),
    (13, KnownKind::VideoOrientation, "d003"),
    (14, KnownKind::TransmissionTimeOffset, "e300000064"),
];

// The values are read back one by one.
#[test]
fn each_kind(rt: HostRuntime) {
    let mut values = ExtensionValues::default();
    for &(id, kind, text) in &KINDS {
        values = check_kind(&rt, rt.alloc(), id, kind, text, values);
    }
    are_values(&rt, "the end", &values, &full());
}

// A level of 0 with voice, and a capture time without an offset.
fn without_offset() -> ExtensionValues {
    let mut values = captured(None);
    values.audio_level = Some(0);
    values.voice_activity = Some(true);
    values
}

#[test]
fn a_level_of_0_and_a_capture_time_without_offset(rt: HostRuntime) {
    let map = || two(1, Extension::AudioLevel, 5, Extension::AbsoluteCaptureTime);
    let text = "1080570102030405060708";
    check(&rt, rt.alloc(), map(), without_offset(), OneByte, text);
    let values = read(&rt, rt.alloc(), map(), text, ExtensionValues::default());
    holds(&rt, "what is read", values == without_offset());
}

#[test]
fn ids_above_14(rt: HostRuntime) {
    let low = one(4, Extension::AbsoluteSendTime);
    check(
        &rt,
        rt.alloc(),
        low,
        sent(1_000_000_000),
        OneByte,
        "42a00000",
    );
    let high = one(16, Extension::AbsoluteSendTime);
    check(
        &rt,
        rt.alloc(),
        high,
        sent(1_000_000_000),
        TwoByte,
        "1003a00000",
    );
    let map = one(16, Extension::AbsoluteCaptureTime);
    let text = "10100102030405060708ffffffffc521974f";
    check(
        &rt,
        rt.alloc(),
        map,
        captured(Some(-987_654_321)),
        TwoByte,
        text,
    );
    // The id counts, whether there is a value or not.
    let levels = || one(15, Extension::AudioLevel);
    check(
        &rt,
        rt.alloc(),
        levels(),
        ExtensionValues::default(),
        TwoByte,
        "",
    );
    check(
        &rt,
        rt.alloc(),
        levels(),
        level(-43, false),
        TwoByte,
        "0f012b",
    );
}
