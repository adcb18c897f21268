// A sheet whose header is in order.

ghost use Rattle.std.specs.Prelude.{◌≡◌, IfOk};
ghost use Rattle.level.specs.Answer.{tested, given};
ghost use Rattle.layout.specs.Answer.{fields};
ghost use Rattle.layout.specs.Head.{well_headed};
ghost use Rattle.layout.specs.HeadLaws.{InOrder};

use layout::{Fields, header};
use level::Refusal;

// The bytes of a sheet, and what its header says: it is in order.
#[derive(Clone, Copy)]
pub(crate) struct Headed<'a> {
    pub(crate) bytes: &'a [u8],
    pub(crate) head: Fields,
    pub(crate) ghost in_order: { InOrder bytes.now },
    pub(crate) ghost told: { head ≡ fields bytes.now },
}

impl<'a> Headed<'a> {
    // 10, 1, 2, 11 and 12, or the sheet with its header.
    pub(crate) fn new(sheet: &'a [u8]) -> Result<Headed<'a>, Refusal>
        ensures answer { tested result ≡ well_headed sheet.now (given tt) }
        ensures bytes { IfOk result (λ s. s.bytes.now ≡ sheet.now) }
    {
        let head = header::read_header(sheet)?;
        Ok(Headed { bytes: sheet, head })
    }
}
