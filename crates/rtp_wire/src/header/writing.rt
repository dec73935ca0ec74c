//! From a header to bytes.

ghost use Rattle.std.specs.Prelude.{◌≡◌, ℕ, ◌+◌, ◌*◌, ◌%◌, ◌≤◌, ◌↔◌, ◌++◌, List, length, drop, slice_index, IsNone, IfSome, IfNone};
ghost use Rattle.rtp_ext.specs.ExtensionMap.{mapped_count, HasNoIdAbove};
ghost use Rattle.rtp_ext.specs.WrittenBlock.{whole_words};
ghost use Rattle.rtp_wire.specs.Header.{IsWire};
ghost use Rattle.rtp_wire.specs.Packet.{IsFirstByte};
ghost use Rattle.rtp_wire.specs.Written.{wire_bytes, image_of, CannotBeWritten};

use super::RtpHeader;
use super::writing_values::{try_write_values, values_wire_len, write_in};
use rtp_ext::{Kinds, KnownIds, values_form};

impl RtpHeader {
    /// Returns how many bytes [`write_to`](Self::write_to) writes under the map: a multiple of
    /// four, 12 without CSRC list and block, and at most 65,612. The map gives a closer bound: 76
    /// bytes (12, 15 sources of 4, and the 4 of a block before its elements) and 257 for each
    /// mapped id, rounded up to whole words, so at most 4,188 where no id above 16 is mapped.
    /// Requires at most 15 contributing sources.
    pub fn wire_len<K: Kinds>(&self, exts: &K) -> usize
        requires sources { self.now.csrc_count ≤ 15 }
        ensures length { result ≡ length (wire_bytes (K.slots exts.now) self.now) }
        ensures words { result % 4 ≡ 0 }
        ensures by_map { result ≤ 76 + whole_words (257 * mapped_count (K.slots exts.now)) }
        ensures small { HasNoIdAbove 16 (K.slots exts.now) → result ≤ 4188 }
        ensures bound { result ≤ 65612 }
    {
        values_wire_len(self, &self.ext_vals, exts)
    }

    /// Writes the header to the front of the buffer and returns how many bytes it took; the bytes
    /// after them stay as they were (RFC 3550, 5.1; RFC 8285, 4.2 and 4.3). Version 2 is written
    /// whatever `version` holds; `header_len` and the slots after the CSRC list are not looked at.
    /// Where `has_extension` is set a block is written, with an element for each mapped id, by
    /// rising id, whose value is there, in the form that [`ExtensionMap::form`] returns; zeros fill
    /// its last word. Where it is clear nothing is written of the values. Where `has_padding` is set
    /// so is P, and the padding is the caller's to put behind the payload.
    ///
    /// Requires a payload type of at most 127, at most 15 contributing sources, and room for
    /// [`wire_len`](Self::wire_len) bytes.
    ///
    /// With an audio level of -42 without voice under a map of 3 to the audio level, the payload
    /// type 33, the sequence number 47,000, the timestamp 10,000 and the SSRC 44, the twenty bytes
    /// are `90 21 B7 98 00 00 27 10 00 00 00 2C BE DE 00 01 30 2A 00 00`.
    pub fn write_to<K: Kinds>(&self, buf: &mut [u8], exts: &K) -> usize
        requires payload_type { self.now.payload_type ≤ 127 }
        requires sources { self.now.csrc_count ≤ 15 }
        requires room { length (wire_bytes (K.slots exts.now) self.now) ≤ length buf.old }
        ensures written { buf.new ≡ wire_bytes (K.slots exts.now) self.now ++ drop result buf.old }
        ensures length { result ≡ length (wire_bytes (K.slots exts.now) self.now) }
        ensures words { result % 4 ≡ 0 }
        ensures by_map { result ≤ 76 + whole_words (257 * mapped_count (K.slots exts.now)) }
        ensures small { HasNoIdAbove 16 (K.slots exts.now) → result ≤ 4188 }
        ensures bound { result ≤ 65612 }

        // So whether padding is announced is seen in the first byte.
        ensures first_byte { IsFirstByte (slice_index buf.new 0)
            self.now.has_padding self.now.has_extension self.now.csrc_count }

        // What was written, followed by anything, is read as the header's image.
        ensures read_back { (rest : List ℕ) →
            IsWire (K.slots exts.now) (wire_bytes (K.slots exts.now) self.now ++ rest)
            (image_of (K.slots exts.now) self.now) }
    {
        let ids = KnownIds::of(exts);
        let form = if self.has_extension {
            Some(values_form(&ids, &self.ext_vals))
        } else {
            None
        };
        write_in(self, &ids, &self.ext_vals, form, buf)
    }

    /// Writes the header as [`write_to`](Self::write_to) does, whatever it holds and however long
    /// the buffer is. `None` where the payload type is above 127, there are more than 15
    /// contributing sources, or the buffer has fewer than [`wire_len`](Self::wire_len) bytes, and
    /// then nothing is written.
    pub fn try_write_to<K: Kinds>(&self, buf: &mut [u8], exts: &K) -> Option<usize>
        ensures refused { IsNone result
            ↔ CannotBeWritten (K.slots exts.now) self.now (length buf.old) }
        ensures unchanged { IfNone result (buf.new ≡ buf.old) }
        ensures written { IfSome result (λ len.
            buf.new ≡ wire_bytes (K.slots exts.now) self.now ++ drop len buf.old) }
        ensures length { IfSome result (λ len.
            len ≡ length (wire_bytes (K.slots exts.now) self.now)) }

        // What was written, followed by anything, is read as the header's image.
        ensures read_back { IfSome result (λ _. (rest : List ℕ) →
            IsWire (K.slots exts.now) (wire_bytes (K.slots exts.now) self.now ++ rest)
            (image_of (K.slots exts.now) self.now)) }
    {
        try_write_values(self, buf, &self.ext_vals, exts)
    }
}
