//! The entries of a map, one after another.

ghost use Rattle.std.specs.Prelude.{◌≡◌, ◌≤◌, [], length};
ghost use Rattle.std.specs.Fmt.{WritesOnOk};
ghost use Rattle.std.specs.List.{filter};
ghost use Rattle.std.specs.Iterator.{YieldsFirstBy, item_count};
ghost use Rattle.rtp_ext.specs.ExtensionMap.{is_of_medium, items_from, items_text};

use super::slots::{Slot, is_of_medium};
use rtp_values::Extension;
use std::fmt;
use std::marker::Model;

/// The ids of a map by rising id, each with its extension.
#[derive(Drop)]
pub struct Iter<'a> {
    // The slots that are left, and how many were passed: the id of the last one.
    left: &'a [Slot],
    passed: u8,
}

impl<'a> Model for Iter<'a> {
    ghost use Rattle.std.specs.Prelude.{ℕ, ◌+◌, ◌≤◌, List, length};
    ghost use Rattle.rtp_values.specs.declared.kind.Extension.{Extension};
    ghost use Rattle.rtp_ext.specs.ExtensionMap.{items_from};

    ghost Value = { List (ℕ × Extension) };

    ghost view = { λ iter. items_from iter.passed iter.left.now };

    ghost invariant = { λ iter. iter.passed + length iter.left.now ≤ 255 };
}

impl<'a> Iter<'a> {
    // The entries of these slots, which are those of the ids from 1 on.
    pub(super) fn new(slots: &'a [Slot]) -> Self
        requires { length slots.now ≤ 255 }
        ensures { result ≡ items_from 0 slots.now }
    {
        Iter {
            left: slots,
            passed: 0,
        }
    }
}

impl<'a> Iterator for Iter<'a> {
    type Item = (u8, &'a Extension);

    ghost next_gives = { YieldsFirstBy (λ item. (item.0, item.1.now)) (λ left. left) };

    ghost remaining = { item_count (λ left. left) };

    fn next(&mut self) -> Option<(u8, &'a Extension)> {
        loop {
            let (slot, left) = self.left.split_first()?;
            self.left = left;
            self.passed += 1;
            if let Some(ext) = slot.extension() {
                return Some((self.passed, ext));
            }
        }
    }
}

/// The entries that are left, each as its number and the extension's text.
impl<'a> fmt::Debug for Iter<'a> {
    ghost use Rattle.std.specs.Prelude.{Some, [], ◌++◌, codes};
    ghost use Rattle.rtp_ext.specs.ExtensionMap.{items_text};

    ghost debug_output = { λ left. Some (codes "Iter(" ++ items_text [] left ++ codes ")") };

    fn fmt<W: fmt::Write>(&self, f: &mut fmt::Formatter<W>) -> fmt::Result {
        f.write_str("Iter(")?;
        let left = Iter {
            left: self.left,
            passed: self.passed,
        };
        write_entries(f, left)?;
        f.write_str(")")
    }
}

// Writes the entries with commas between, each as its number and the extension's text.
pub(super) fn write_entries<W: fmt::Write>(
    f: &mut fmt::Formatter<W>,
    entries: Iter<'_>,
) -> fmt::Result
    ensures { WritesOnOk W.write_str_gives f.old result (items_text [] entries.entry) f.new }
{
    let mut lead = "";
    for (id, ext) in entries {
        write!(f, "{lead}{id}={ext}")?;
        lead = ", ";
    }
    Ok(())
}

/// The ids of a map whose extensions are for one medium, by rising id, each with its extension.
#[derive(Debug, Drop)]
pub struct IterByMediaType<'a> {
    all: Iter<'a>,
    audio: bool,
}

impl<'a> Model for IterByMediaType<'a> {
    ghost use Rattle.std.specs.Prelude.{ℕ, List};
    ghost use Rattle.std.specs.List.{filter};
    ghost use Rattle.rtp_values.specs.declared.kind.Extension.{Extension};
    ghost use Rattle.rtp_ext.specs.ExtensionMap.{is_of_medium};

    ghost Value = { List (ℕ × Extension) };

    ghost view = { λ iter. filter (λ item. is_of_medium iter.audio item.1) iter.all };
}

impl<'a> IterByMediaType<'a> {
    // Those of the entries that are for audio, or else for video.
    pub(super) fn new(all: Iter<'a>, audio: bool) -> Self
        ensures { result ≡ filter (λ item. is_of_medium audio item.1) all.entry }
    {
        IterByMediaType { all, audio }
    }
}

impl<'a> Iterator for IterByMediaType<'a> {
    type Item = (u8, &'a Extension);

    ghost next_gives = { YieldsFirstBy (λ item. (item.0, item.1.now)) (λ left. left) };

    ghost remaining = { item_count (λ left. left) };

    fn next(&mut self) -> Option<(u8, &'a Extension)> {
        loop {
            let (id, ext) = self.all.next()?;
            if is_of_medium(ext, self.audio) {
                return Some((id, ext));
            }
        }
    }
}
