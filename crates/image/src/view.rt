// Views: a picture in the caller's bytes, which a view borrows. Making one refuses nothing; each call over it refuses
// by its own rules.
ghost use Rattle.std.specs.Prelude.{◌≡◌, length, IfOk};
ghost use Rattle.image.specs.Call.{Checks};
ghost use Rattle.image.specs.Refusal.{layout_refusal};
ghost use Rattle.image.specs.Picture.{pixel_of, row_of};
ghost use Rattle.image.specs.View.{view_of, view_mut_of, layout_of, layout_of_mut, LaidView};
ghost use Rattle.image.specs.View.{pixel_of_view, pixel_of_view_mut};

use crate::{Layout, Refusal};

// A picture to be read.
#[derive(Clone, Copy)]
pub struct Gray8View<'a> {
    pub data: &'a [u8],
    pub width: usize,
    pub height: usize,
    pub stride: usize,
}

// A picture to be written.
// Two types: a view to be read is copied, and this one gives its bytes away.
#[derive(Drop)]
pub struct Gray8ViewMut<'a> {
    pub data: &'a mut [u8],
    pub width: usize,
    pub height: usize,
    pub stride: usize,
}

impl<'a> Gray8View<'a> {
    // The longest side.
    pub const MAX_SIDE: usize = 1024;

    pub fn new(data: &'a [u8], width: usize, height: usize, stride: usize) -> Gray8View<'a>
        ensures { result ≡ view_of «data».entry width height stride }
    {
        Gray8View {
            data: &*data,
            width,
            height,
            stride,
        }
    }

    pub fn layout(self) -> Layout
        ensures { result ≡ layout_of self.entry }
    {
        Layout {
            len: self.data.len(),
            width: self.width,
            height: self.height,
            stride: self.stride,
        }
    }

    // Refusals 1 to 4 of the layout.
    pub fn check(self) -> Result<(), Refusal>
        ensures number { Checks (layout_refusal (length self.entry.«data».now) self.entry.width
            self.entry.height self.entry.stride) result }
        ensures laid { IfOk result (λ _. LaidView self.entry) }
    {
        self.layout().check()
    }

    // The pixels of a row, as a part of the picture's bytes; the empty part where the layout is refused or has no such
    // row.
    #[tactic(auto, unfolding(crate::specs::Picture::row_of))]
    pub fn row(self, y: usize) -> &'a [u8]
        ensures { result.now ≡ row_of self.entry.«data».now self.entry.width self.entry.height
            self.entry.stride y }
    {
        if self.check().is_err() || y >= self.height {
            return &self.data[..0];
        }
        let start = y * self.stride;
        &self.data[start..start + self.width]
    }

    // The pixel in column x and row y; none where the layout is refused, and outside the picture.
    #[tactic(auto, unfolding(crate::specs::Picture::pixel_of))]
    pub fn get(self, x: usize, y: usize) -> Option<u8>
        ensures { result ≡ pixel_of self.entry.«data».now self.entry.width self.entry.height
            self.entry.stride x y }
    {
        if self.check().is_err() || x >= self.width || y >= self.height {
            return None;
        }
        Some(self.data[y * self.stride + x])
    }

    // The same as `get`, which has no byte to answer outside: the Rust has both names.
    pub fn try_get(self, x: usize, y: usize) -> Option<u8>
        ensures { result ≡ pixel_of_view self.entry x y }
    {
        self.get(x, y)
    }

    pub fn width(self) -> usize
        ensures { result ≡ self.entry.width }
    {
        self.width
    }

    pub fn height(self) -> usize
        ensures { result ≡ self.entry.height }
    {
        self.height
    }

    pub fn stride(self) -> usize
        ensures { result ≡ self.entry.stride }
    {
        self.stride
    }
}

impl<'a> Gray8ViewMut<'a> {
    pub fn new(data: &'a mut [u8], width: usize, height: usize, stride: usize) -> Gray8ViewMut<'a>
        ensures { result ≡ view_mut_of «data».entry width height stride }
    {
        Gray8ViewMut {
            data,
            width,
            height,
            stride,
        }
    }

    pub fn layout(&self) -> Layout
        ensures { result ≡ layout_of_mut self.now }
    {
        Layout {
            len: self.data.len(),
            width: self.width,
            height: self.height,
            stride: self.stride,
        }
    }

    // Refusals 1 to 4 of the layout.
    pub fn check(&self) -> Result<(), Refusal>
        ensures { Checks (layout_refusal (length self.now.«data».now) self.now.width self.now.height
            self.now.stride) result }
    {
        self.layout().check()
    }

    pub fn get(&self, x: usize, y: usize) -> Option<u8>
        ensures { result ≡ pixel_of_view_mut self.now x y }
    {
        let data: &[u8] = &*self.data;
        Gray8View::new(data, self.width, self.height, self.stride).get(x, y)
    }

    pub fn width(&self) -> usize
        ensures { result ≡ self.now.width }
    {
        self.width
    }

    pub fn height(&self) -> usize
        ensures { result ≡ self.now.height }
    {
        self.height
    }

    pub fn stride(&self) -> usize
        ensures { result ≡ self.now.stride }
    {
        self.stride
    }
}
