//! What came in a field, or at a joined path of one.
ghost use Rattle.std.specs.Prelude.{◌≡◌};
ghost use Rattle.seg_model.specs.DocumentCheck as checked;
ghost use Rattle.seg_check.specs.TotalsOfFields.{no_totals, with_more, totals_fit};

use crate::size::TextSize;

/// How many values came, and the size of their texts. The number stays at its type's end.
#[derive(Clone, Copy)]
pub(crate) struct Totals {
    pub size: TextSize,
    pub count: u64,
}

impl Totals {
    /// Before any value.
    pub fn none() -> Totals
        ensures { result ≡ no_totals }
    {
        Totals {
            size: TextSize::none(),
            count: 0,
        }
    }

    /// After one more value, whose texts have this size.
    pub fn with(self, size: TextSize) -> Totals
        ensures { result ≡ with_more self size }
    {
        Totals {
            size: self.size.plus(size),
            count: self.count.saturating_add(1),
        }
    }

    /// Whether each number fits a u32.
    pub fn fits(self) -> bool
        ensures { result ≡ totals_fit self }
    {
        is_u32(self.size.width) && is_u32(self.size.tokens) && is_u32(self.count)
    }
}

pub(crate) fn is_u32(number: u64) -> bool
    ensures { result ≡ checked.is_u32 number }
{
    number <= u64::from(u32::MAX)
}
