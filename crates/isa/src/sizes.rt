// The sizes that an outer product's operation has.
ghost use Rattle.std.specs.Prelude.{◌≡◌};
ghost use Rattle.isa.specs.Table.{element_bytes, products_of, source_bytes};

use crate::Operation;

// Bytes of a tile element; there are as many tiles of that size.
pub fn element_bytes(op: Operation) -> u32
    ensures { result ≡ element_bytes op }
{
    if op.wide { 8 } else { 4 }
}

// How many products come to a tile element.
pub fn products(op: Operation) -> u32
    ensures { result ≡ products_of op }
{
    if op.two_way { 2 } else { 4 }
}

// Bytes of a source element.
pub fn source_bytes(op: Operation) -> u32
    ensures { result ≡ source_bytes op }
{
    element_bytes(op) / products(op)
}
