// An image over bytes that someone else holds.
ghost use Rattle.std.specs.Prelude.{◌≡◌, ◌⊎◌, ◌≤◌, ◌<◌, ◌+◌, ◌*◌, ◌/◌, ◌^◌, ℕ, false, true, get_or, length, IfOk, OnErr, OnOk, slice_index, slice_set};
ghost use borrow.Rule.Slice.PartMut.{put_mid};
ghost use Rattle.dsr_image.specs.Images.{AreClaimed, StayClaimed};
ghost use Rattle.dsr_meaning.specs.Writes.{AreBytes};
ghost use Rattle.dsr_overlay.specs.Overlays.{IsTouched, is_owned, page_of};

use crate::front::{front_value, put_front, span};
use crate::page::{PAGE, Page, page_in};
use dsr_image::ImageBytes;
use dsr_ir::{Cell, NoMemory};
use std::alloc::Global;
use std::marker::Model;

/// The bytes of an image that someone else holds, with pages of its own in place of those that were
/// claimed. What is borrowed stays as it is. A page has 4,096 bytes, the last one maybe fewer, and
/// each one that is owned has memory of its own, so that no claim moves another page.
#[derive(Drop)]
pub struct Overlay<'a> {
    alloc: Global,
    original: &'a [u8],
    pages: Vec<Option<Page>>,
}

impl<'a> Model for Overlay<'a> {
    ghost use Rattle.dsr_overlay.specs.Overlays.{IsOverlay, Overlaid, shown};

    ghost Value = { Overlaid };

    ghost view = { λ o. shown 4096 o.original.now o.pages.items };

    ghost invariant = { λ o. IsOverlay 4096 o.original.now o.pages.items };
}

impl<'a> Overlay<'a> {
    /// The image of these bytes, no page of which is owned. The memory for a table with an entry a
    /// page is taken here, that for a page once it is claimed.
    pub fn new(alloc: Global, bytes: &'a [u8]) -> Result<Overlay<'a>, NoMemory>
        ensures bytes { IfOk result (λ image. image.bytes ≡ bytes.now) }
        ensures unowned { IfOk result (λ image. (at : ℕ) → is_owned 4096 image at ≡ false) }
    {
        let count = bytes.len().div_ceil(PAGE);
        let mut pages = Vec::with_capacity(alloc, count)?;
        for _ in 0..count {
            pages.push(None)?;
        }
        Ok(Overlay {
            alloc,
            original: bytes,
            pages,
        })
    }

    /// A copy of the whole image.
    pub fn bytes(&self) -> Result<Vec<u8>, NoMemory>
        ensures { IfOk result (λ copy. copy.items ≡ self.now.bytes) }
    {
        let mut copy = Vec::with_capacity(self.alloc, self.original.len())?;
        for number in 0..self.original.len().div_ceil(PAGE) {
            copy.extend_from_slice(self.page(number))?;
        }
        Ok(copy)
    }

    // How many bytes there are.
    fn length(&self) -> usize
        ensures count { result ≡ length self.now.bytes }
        ensures bytes { AreBytes self.now.bytes }
    {
        self.original.len()
    }

    // The bytes of a page.
    fn page(&self, number: usize) -> &[u8]
        requires { 4096 * number < length self.now.bytes }
        ensures { result.now ≡ page_of 4096 self.now.bytes number }
    {
        match &self.pages[number] {
            Some(page) => page.bytes(),
            None => page_in(self.original, number),
        }
    }

    // Makes a page owned.
    fn own(&mut self, number: usize) -> Result<(), NoMemory>
        requires { 4096 * number < length self.old.bytes }
        ensures bytes { self.new.bytes ≡ self.old.bytes }
        ensures owned { OnOk result (self.new.owned ≡ slice_set self.old.owned number true) }
        ensures there { number < length self.old.owned }
        ensures needed { OnErr result (get_or self.old.owned number false ≡ false) }
        ensures kept { OnErr result (self.new.owned ≡ self.old.owned) }
    {
        if self.pages[number].is_none() {
            let page = Page::copy(self.alloc, page_in(self.original, number))?;
            self.pages[number] = Some(page);
        }
        Ok(())
    }

    // Writes a byte of an owned page.
    fn set(&mut self, at: usize, byte: u8)
        requires owned { is_owned 4096 self.old at ≡ true }
        requires within { at < length self.old.bytes }
        ensures bytes { self.new.bytes ≡ slice_set self.old.bytes at byte }
        ensures owned { self.new.owned ≡ self.old.owned }
        ensures after { AreBytes self.new.bytes }
    {
        if let Some(page) = &mut self.pages[at / PAGE] {
            page.set(at % PAGE, byte);
        }
    }

    // Writes bytes of owned pages, from one on.
    fn write(&mut self, first: usize, part: &[u8])
        requires claimed { AreClaimed (is_owned 4096 self.old) first (length part.now) }
        requires within { first + length part.now ≤ length self.old.bytes }
        requires fits { first + length part.now < 2 ^ 64 }
        requires before { AreBytes self.old.bytes }
        ensures bytes { self.new.bytes ≡ put_mid first (length part.now) self.old.bytes part.now }
        ensures owned { self.new.owned ≡ self.old.owned }
        ensures after { AreBytes self.new.bytes }
    {
        for (i, byte) in part.iter().enumerate() {
            self.set(first + i, *byte);
        }
    }

    // So many bytes from one on, and zeros behind them.
    fn window(&self, first: usize, count: usize) -> [u8; 8]
        requires few { count ≤ 8 }
        requires within { first + count ≤ length self.now.bytes }
        requires fits { first + count < 2 ^ 64 }
        ensures bytes { (q : ℕ) → q < count →
            slice_index result q ≡ slice_index self.now.bytes (first + q) }
        ensures eight { length result ≡ 8 }
    {
        let mut part = [0; 8];
        for i in 0..count {
            part[i] = self.byte_at(first + i);
        }
        part
    }

    fn byte_at(&self, at: usize) -> u8
        requires { at < length self.now.bytes }
        ensures { result ≡ slice_index self.now.bytes at }
    {
        let page = self.page(at / PAGE);
        page[at % PAGE]
    }
}

impl<'a> ImageBytes for Overlay<'a> {
    ghost use Rattle.dsr_overlay.specs.Overlays.{is_owned};

    ghost bytes = { λ o. o.bytes };

    ghost claimed = { is_owned 4096 };

    fn len(&self) -> u64 {
        self.length() as u64
    }

    fn byte(&self, at: u64) -> u8 {
        self.byte_at(at as usize)
    }

    fn get(&self, cell: &Cell) -> u64 {
        let (first, count) = ((cell.bit / 8) as usize, span(cell));
        let (page, at) = (self.page(first / PAGE), first % PAGE);
        if at + count <= page.len() {
            front_value(&page[at..], cell)
        } else {
            front_value(&self.window(first, count), cell)
        }
    }

    /// Copies each page that has a byte of the range and isn't owned yet. Pages that were copied
    /// before memory was wanting stay owned.
    fn claim(&mut self, at: u64, count: u64) -> Result<(), NoMemory>
        requires { at + count ≤ length self.old.bytes }
        ensures bytes { self.new.bytes ≡ self.old.bytes }
        ensures claimed { OnOk result (AreClaimed (is_owned 4096 self.new) at count) }
        ensures needed { OnErr result (AreClaimed (is_owned 4096 self.old) at count → ⊥) }
        ensures kept { StayClaimed (is_owned 4096 self.old) (is_owned 4096 self.new) }
        ensures pages { (number : ℕ) → get_or self.new.owned number false ≡ true →
            (get_or self.old.owned number false ≡ true) ⊎ IsTouched 4096 at count number }
    {
        if count == 0 {
            return Ok(());
        }
        // The range ends within the image, so its end is a `usize`.
        prove!(count <= self.length() as u64 - at);
        for number in at as usize / PAGE..(at as usize + count as usize).div_ceil(PAGE) {
            self.own(number)?;
        }
        Ok(())
    }

    fn put(&mut self, cell: &Cell, value: u64) {
        let (first, count) = ((cell.bit / 8) as usize, span(cell));
        // The cell lies within the image.
        prove!(first + count <= self.length());
        let mut part = self.window(first, count);
        put_front(&mut part, cell, value);
        self.write(first, &part[..count]);
    }
}
