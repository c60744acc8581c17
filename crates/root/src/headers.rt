ghost use Rattle.std.specs.Prelude.{◌≡◌, ◌≤◌, length, List};
ghost use Rattle.std.specs.Iterator.{YieldsFirstBy, item_count};
ghost use Rattle.packed.specs.Limit.{byte_limit};
ghost use Rattle.root.specs.Fields.{header_offset, headers_before};
ghost use Rattle.root.specs.Shown.{AllShow};
ghost use Rattle.root.specs.Streams.{Header};
ghost use Rattle.root.specs.Views.{view};

use crate::header::{StreamHeader, read_header};
use std::marker::Model;

/// An iterator over all stream headers of a root, in file order. `Root::headers` creates it.
#[derive(Clone, Drop)]
pub struct Headers<'a> {
    bytes: &'a [u8],
    place: usize,
    next: usize,
    count: usize,
}

impl<'a> Model for Headers<'a> {
    ghost use Rattle.std.specs.Prelude.{List};
    ghost use Rattle.root.specs.Streams.{Header};

    ghost Value = { List Header };

    ghost use Rattle.root.specs.Tail.{tail_of, IsOnTheWay};

    ghost view = { tail_of };

    ghost invariant = { IsOnTheWay };
}

impl<'a> Headers<'a> {
    /// An iterator over `count` headers, the first at offset `start`.
    pub(crate) fn new(bytes: &'a [u8], start: usize, count: usize) -> Headers<'a>
        requires small { length bytes.now ≤ byte_limit }
        requires start { start ≡ header_offset bytes.now 0 }
        requires shows { AllShow bytes.now count }
        ensures { result ≡ headers_before bytes.now count }
    {
        Headers {
            bytes,
            place: start,
            next: 0,
            count,
        }
    }
}

impl<'a> Iterator for Headers<'a> {
    type Item = StreamHeader<'a>;

    ghost next_gives = { YieldsFirstBy view (λ tail. tail) };

    ghost remaining = { item_count (λ tail. tail) };

    fn next(&mut self) -> Option<StreamHeader<'a>> {
        if self.next == self.count {
            return None;
        }
        let header = read_header(self.bytes, self.place)?;
        self.place = header.end();
        self.next += 1;
        Some(header)
    }
}
