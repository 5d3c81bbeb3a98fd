//! Addresses as values: sixteen bytes, the highest first.
ghost use Rattle.std.proofs.Common.{arith};
ghost use Rattle.seg_columns.specs.Addresses.{address};

use crate::column_value::ColumnValue;
use std::net::Ipv6Addr;

impl ColumnValue for Ipv6Addr {
    ghost WIDTH = { 16 };

    const WIDTH: usize = 16;

    ghost decoded = { address };

    ghost some_bytes = { (Prim.omega arith, Prim.omega arith) };

    fn decode(bytes: &[u8]) -> Option<Ipv6Addr> {
        let [a, b, c, d, e, f, g, h, i, j, k, l, m, n, o, p] = bytes else {
            return None;
        };
        Some(Ipv6Addr::from_octets([
            *a, *b, *c, *d, *e, *f, *g, *h, *i, *j, *k, *l, *m, *n, *o, *p,
        ]))
    }
}
