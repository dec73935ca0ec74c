//! The contributing sources of a packet.

ghost use Rattle.std.specs.Prelude.{◌≡◌, length, Some, IfSome};
ghost use Rattle.std.specs.Iterator.{YieldsFirst, item_count, at_most, UpTo};
ghost use Rattle.std.specs.Iterator.SizeHint.{IsWithinCount};

use std::marker::Model;

/// The contributing sources of a packet in order, at most fifteen (RFC 3550, 5.1). They are read
/// from the datagram one by one.
#[derive(Debug, Drop)]
pub struct Csrcs<'a> {
    // The groups of bytes that are left, one for each source.
    pub(super) left: &'a [[u8; 4]],
}

impl<'a> Model for Csrcs<'a> {
    ghost use Rattle.std.specs.Prelude.{List, ℕ, map};
    ghost use Rattle.std.specs.Int.{w32, from_be_bytes};

    ghost Value = { List ℕ };

    ghost view = { λ it. map (from_be_bytes w32) it.left.now };
}

impl<'a> Iterator for Csrcs<'a> {
    type Item = u32;

    ghost next_gives = { YieldsFirst (λ left. left) };

    ghost remaining = { item_count (λ left. left) };

    fn next(&mut self) -> Option<u32> {
        let (group, left) = self.left.split_first()?;
        self.left = left;
        Some(u32::from_be_bytes(*group))
    }

    /// How many sources are left, as both bounds.
    fn size_hint(&self) -> (usize, Option<usize>)
        ensures lower { IsWithinCount result.0 (at_most (length self.now)) }
        ensures upper { IfSome result.1 (UpTo (at_most (length self.now))) }
        ensures exact { result ≡ (length self.now, Some (length self.now)) }
    {
        let len = self.len();
        (len, Some(len))
    }
}

impl<'a> ExactSizeIterator for Csrcs<'a> {
    fn len(&self) -> usize {
        self.left.len()
    }
}
