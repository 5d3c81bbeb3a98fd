//! Values that stand for themselves.
ghost use Rattle.seg_model.specs.Columns as model;
ghost use Rattle.std.specs.Prelude.{pos};
ghost use Rattle.std.specs.Net.Addr.{ipv6_octets};

use crate::column_printer::Printer;
use crate::{push_address, push_bool, push_date, push_decimal, push_signed};
use seg_common::DateTime;
use std::alloc::{AllocError, Global};
use std::net::Ipv6Addr;

/// Prints values that stand for themselves.
#[derive(Drop)]
pub(crate) struct Plain;

impl Printer<i64> for Plain {
    ghost meant = { λ _ number. model.number number };

    fn push(&self, out: &mut Vec<u8>, _alloc: Global, value: i64) -> Result<(), AllocError> {
        push_signed(out, value)
    }
}

impl Printer<u64> for Plain {
    ghost meant = { λ _ number. model.number (pos number) };

    fn push(&self, out: &mut Vec<u8>, _alloc: Global, value: u64) -> Result<(), AllocError> {
        push_decimal(out, value)
    }
}

impl Printer<bool> for Plain {
    ghost meant = { λ _ truth. model.boolean_value truth };

    fn push(&self, out: &mut Vec<u8>, _alloc: Global, value: bool) -> Result<(), AllocError> {
        push_bool(out, value)
    }
}

impl Printer<Ipv6Addr> for Plain {
    ghost meant = { λ _ address. model.ip_value (ipv6_octets address) };

    fn push(&self, out: &mut Vec<u8>, alloc: Global, value: Ipv6Addr) -> Result<(), AllocError> {
        push_address(out, alloc, value)
    }
}

impl Printer<DateTime> for Plain {
    ghost meant = { λ _ moment. model.date_value moment };

    fn push(&self, out: &mut Vec<u8>, _alloc: Global, value: DateTime) -> Result<(), AllocError> {
        push_date(out, value)
    }
}
