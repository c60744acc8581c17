ghost use Rattle.std.specs.Prelude.{◌≡◌, ◌+◌, ◌≤◌, ◌<◌, ◌^◌, true, ℕ, List, IfOk, length};
ghost use Rattle.heaps.specs.Windows.{AreNames, window};

use crate::windows::Windows;
use std::alloc::{AllocError, Global};

/// The names of the windows of a heap, by which long parts of it are compared in a few steps.
#[derive(Drop)]
pub struct WindowNames {
    /// The number of bytes of a window.
    pub width: u32,
    /// For each position one with an equal window. Empty if no window is named.
    pub names: Vec<u32>,
}

/// Whether the windows at two positions have one name.
#[tactic(auto, using(crate::proofs::WindowLemmas::one_name))]
fn have_one_name(names: &[u32], first: usize, second: usize) -> bool
    requires first { first < length names.now }
    requires second { second < length names.now }
    ensures { result ≡ true → (heap : List ℕ) (width : ℕ) → AreNames heap width names.now → window heap width first ≡ window heap width second }
{
    names[first] == names[second]
}

/// Whether the windows that begin at two positions and further on, up to `len` bytes, have the same names.
fn have_same_names(names: &[u32], width: u32, first: usize, second: usize, len: usize) -> bool
    requires width { 0 < width }
    requires first { first + len ≤ length names.now }
    requires second { second + len ≤ length names.now }
    ensures { result ≡ true → (heap : List ℕ) → AreNames heap width names.now → window heap len first ≡ window heap len second }
{
    let mut step = 0;
    while step < len {
        if !have_one_name(names, first + step, second + step) {
            return false;
        }
        step += width as usize;
    }
    true
}

impl WindowNames {
    /// No names. The call does not allocate.
    pub fn new(alloc: Global) -> WindowNames
        ensures { (heap : List ℕ) → AreNames heap result.width result.names.items }
    {
        WindowNames {
            width: 0,
            names: Vec::new(alloc),
        }
    }

    /// Names the windows of a heap. Their width is the least power of two that is at least `least`.
    ///
    /// # Errors
    ///
    /// Only if out of memory. It takes sixteen bytes for each byte of the heap, and keeps four.
    pub fn of_heap(alloc: Global, heap: &[u8], least: u32) -> Result<WindowNames, AllocError>
        requires fits { length heap.now < 2 ^ 32 }
        requires least { least ≤ 2 ^ 31 }
        ensures { IfOk result (λ named. AreNames heap.now named.width named.names.items) }
    {
        let mut windows = Windows::of_bytes(alloc, heap)?;
        while windows.width < least {
            windows.double();
        }
        Ok(WindowNames {
            width: windows.width,
            names: windows.names,
        })
    }

    /// Whether the bytes from two positions on are equal, as far as their windows show. It takes a step for each width of
    /// a window. False if there are fewer bytes than a window has.
    pub fn are_same(&self, first: usize, second: usize, len: usize) -> bool
        ensures { result ≡ true → (heap : List ℕ) → AreNames heap self.now.width self.now.names.items → window heap len first ≡ window heap len second }
    {
        let count = self.names.len();
        let width = self.width as usize;
        if width == 0
            || len < width
            || first.max(second) > count
            || len > count - first.max(second)
        {
            return false;
        }
        let last = len - width;
        have_one_name(&self.names, first + last, second + last)
            && have_same_names(&self.names, self.width, first, second, last)
    }
}
